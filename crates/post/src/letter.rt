// Letters: what is handed to a post, and what a post answers.

// What a letter carries besides its body: the capabilities that it hands over, and its labels.
#[derive(Clone, Copy, PartialEq, Eq, Debug, Default)]
pub struct LetterSets {
    pub plus: u64,
    pub minus: u64,
    pub secrecy: u64,
    pub integrity: u64,
}

// A letter that is to be put; its body is lent.
#[derive(Clone, Copy, PartialEq, Eq, Debug)]
pub struct Letter<'a> {
    pub sets: LetterSets,
    pub body: &'a [u8],
}

// A letter that was taken; its body lies at the front of the buffer.
// A slice in place of the length is no plainer: it would lend the buffer out, and no plain clause could then say its bytes.
#[derive(Clone, Copy, PartialEq, Eq, Debug)]
pub struct Taken {
    pub sets: LetterSets,
    pub len: u8,
}

// Why a letter is not kept: four wait, its body is over 16 bytes, or there are no such tasks.
#[derive(Clone, Copy, PartialEq, Eq, Debug)]
pub struct Full;
