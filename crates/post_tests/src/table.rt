// What a post answers to a list of operations, for a rack and a band alike; and memory of three sizes.
use band::Band;
use post::{Full, Letter, LetterSets, Pair, Post, PostFault, Record, Taken};
use rack::Rack;
use std::fmt::Debug;
use std::test::Fail;

// Sender, receiver, and then: of a put the letter's mark, its body's length and the answer; of a take the buffer's
// size, and the mark and the length of the letter that is answered; of a count the answer. Closures in place of the rows are
// no plainer: a constant table cannot hold them.
#[derive(Clone, Copy)]
enum Row {
    Puts(u8, u8, u8, u8, Result<(), Full>),
    Takes(u8, u8, u8, Option<(u8, u8)>),
    Counts(u8, u8, u8),
}

const TABLE: [Row; 37] = [
    Row::Takes(1, 2, 16, None),
    Row::Puts(1, 2, 10, 0, Ok(())),
    Row::Puts(1, 2, 11, 1, Ok(())),
    Row::Puts(1, 2, 12, 17, Err(Full)),
    Row::Puts(1, 2, 13, 16, Ok(())),
    Row::Counts(1, 2, 3),
    Row::Counts(2, 1, 0),
    Row::Puts(1, 2, 14, 5, Ok(())),
    Row::Puts(1, 2, 15, 5, Err(Full)),
    Row::Puts(2, 1, 16, 2, Ok(())),
    Row::Counts(1, 2, 4),
    Row::Takes(1, 2, 15, None),
    Row::Counts(1, 2, 4),
    Row::Takes(1, 2, 16, Some((10, 0))),
    Row::Takes(1, 2, 40, Some((11, 1))),
    Row::Puts(1, 2, 17, 3, Ok(())),
    Row::Puts(1, 2, 18, 4, Ok(())),
    Row::Puts(1, 2, 19, 4, Err(Full)),
    Row::Takes(1, 2, 16, Some((13, 16))),
    Row::Takes(1, 2, 40, Some((14, 5))),
    Row::Takes(1, 2, 16, Some((17, 3))),
    Row::Takes(1, 2, 16, Some((18, 4))),
    Row::Takes(1, 2, 16, None),
    Row::Counts(2, 1, 1),
    Row::Takes(2, 1, 16, Some((16, 2))),
    Row::Puts(15, 15, 20, 16, Ok(())),
    Row::Puts(15, 15, 21, 16, Ok(())),
    Row::Puts(15, 15, 22, 16, Ok(())),
    Row::Puts(15, 15, 23, 16, Ok(())),
    Row::Puts(16, 15, 24, 1, Err(Full)),
    Row::Puts(15, 16, 24, 1, Err(Full)),
    Row::Puts(255, 255, 24, 1, Err(Full)),
    Row::Counts(16, 0, 0),
    Row::Counts(0, 255, 0),
    Row::Takes(16, 0, 16, None),
    Row::Takes(0, 16, 16, None),
    Row::Takes(15, 15, 16, Some((20, 16))),
];

// Four different sets from one mark.
fn sets_of(mark: u8) -> LetterSets {
    let mark = u64::from(mark);
    LetterSets {
        plus: mark,
        minus: mark << 8,
        secrecy: mark << 56,
        integrity: u64::MAX - mark,
    }
}

// What a test found beside what it expected.
#[derive(Debug, Drop)]
struct Differ<T> {
    found: T,
    expected: T,
}

fn same<T: PartialEq + Debug + Drop>(found: T, expected: T) -> Result<(), Fail> {
    if found == expected {
        Ok(())
    } else {
        Err(Differ { found, expected })?
    }
}

fn follow<P: Post>(post: &mut P, row: Row) -> Result<(), Fail> {
    match row {
        Row::Puts(sender, receiver, mark, len, answer) => {
            let text = [mark; 32];
            let letter = Letter {
                sets: sets_of(mark),
                body: text.get(..usize::from(len)).ok_or("a body over 32 bytes")?,
            };
            same(post.put(Pair { sender, receiver }, letter), answer)
        }
        Row::Takes(sender, receiver, size, answer) => {
            follow_take(post, Pair { sender, receiver }, size, answer)
        }
        Row::Counts(sender, receiver, answer) => {
            same(post.count(Pair { sender, receiver }), answer)
        }
    }
}

fn follow_take<P: Post>(
    post: &mut P,
    pair: Pair,
    size: u8,
    answer: Option<(u8, u8)>,
) -> Result<(), Fail> {
    let mut buffer = [255; 40];
    let mut expected = [255; 40];
    let part = buffer
        .get_mut(..usize::from(size))
        .ok_or("a buffer over 40 bytes")?;
    let taken = post.take(pair, part);
    match answer {
        Some((mark, len)) => {
            let body = expected
                .get_mut(..usize::from(len))
                .ok_or("a body over 40 bytes")?;
            body.fill(mark);
            let sets = sets_of(mark);
            same(taken, Some(Taken { sets, len }))?;
        }
        None => same(taken, None)?,
    }
    same(buffer, expected)
}

pub fn follow_all<P: Post>(post: &mut P) -> Result<(), Fail> {
    for row in TABLE {
        follow(post, row)?;
    }
    Ok(())
}

// The tests come in pairs, one for each kind of post, and share all but how its memory is made and looked at.

#[test]
fn rack_follows_the_table(rt: HostRuntime) -> Result<(), Fail> {
    let mut memory = vec![in rt.alloc(); Record::blank(); 1024]?;
    Rack::check(&memory)?;
    follow_all(&mut Rack::new(&mut memory))
}

#[test]
fn band_follows_the_table(rt: HostRuntime) -> Result<(), Fail> {
    let mut memory = vec![in rt.alloc(); 255; 50176]?;
    Band::check(&memory)?;
    follow_all(&mut Band::new(&mut memory))
}

#[test]
fn one_place_less_is_refused(rt: HostRuntime) -> Result<(), Fail> {
    let records = vec![in rt.alloc(); Record::blank(); 1023]?;
    assert_eq!(rt; Rack::check(&records), Err(PostFault::TooLittleMemory));
    let bytes = vec![in rt.alloc(); 0u8; 50175]?;
    assert_eq!(rt; Band::check(&bytes), Err(PostFault::TooLittleMemory));
    assert_eq!(rt; u8::from(PostFault::TooLittleMemory), 1);
    Ok(())
}

// The last four records hold letters of another rack, which ended there.
#[test]
fn rack_leaves_what_lies_behind(rt: HostRuntime) -> Result<(), Fail> {
    let mut memory = vec![in rt.alloc(); Record::blank(); 1028]?;
    assert!(rt; memory.len() == 1028);
    follow_all(&mut Rack::new(&mut memory[4..1028]))?;
    let mut rack = Rack::new(&mut memory);
    follow_all(&mut rack)?;
    let memory = rack.into_memory();
    assert!(rt; memory.len() == 1028);
    // this rack's last letter, and behind it the first and the last of the other's last pair
    assert_eq!(rt; memory[1023].sets(), sets_of(23));
    assert_eq!(rt; memory[1024].sets(), sets_of(20));
    assert_eq!(rt; memory[1027].body(), [23u8; 16].as_slice());
    Ok(())
}

#[test]
fn band_leaves_what_lies_behind(rt: HostRuntime) -> Result<(), Fail> {
    let mut memory = vec![in rt.alloc(); 165u8; 50178]?;
    Band::check(&memory)?;
    let mut band = Band::new(&mut memory);
    follow_all(&mut band)?;
    let memory = band.into_memory();
    assert!(rt; memory.len() == 50178);
    // the last byte of the last letter's integrity set
    assert_eq!(rt; memory[50175], 255 - 23);
    assert_eq!(rt; memory[50176], 165);
    assert_eq!(rt; memory[50177], 165);
    Ok(())
}
