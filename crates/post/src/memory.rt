// A post whose letters lie in memory, of whatever kind.
ghost use Rattle.std.specs.Prelude.{◌≡◌, ℕ, ◌≤◌, [], length};
ghost use Rattle.post.specs.Queues.{Letter, upd, room, kept_or_full, posted, reached, oldest, written, removed};
ghost use Rattle.post.specs.Places.{places, lying};
ghost use Rattle.post.specs.Records.{letter_in};
ghost use Rattle.post.specs.Runs.{Faithful};
ghost use Rattle.post.specs.Laws.{lawful};

use crate::{Full, Letter, Lines, Pair, Place, Post, Record, Taken};

// Memory of 1,024 places, each of which holds a letter.
pub trait Memory {
    ghost letters: { Self → ℕ → Letter };

    // what no call changes: which memory was lent, and what of it lies behind the places
    ghost Fixed: { Type 0 };

    ghost fixed: { Self → Fixed };

    // The record of the letter in that place.
    fn load(&self, place: Place) -> Record
        ensures { letter_in result ≡ letters self.now place };

    // That place, and no other, gets the record's letter.
    fn store(&mut self, place: Place, written: Record)
        ensures letters { letters self.new ≡ upd (letters self.old) place (letter_in written) }
        ensures untouched { fixed self.new ≡ fixed self.old };

    ghost short: { (x : Self) (k : ℕ) → length (letters x k).body ≤ 16 };
}

// Puts a letter into memory whose places the lines tell.
pub fn put_in<M: Memory>(
    memory: &mut M,
    lines: &mut Lines,
    pair: Pair,
    letter: Letter<'_>,
) -> Result<(), Full>
    ensures answer { result ≡ kept_or_full (room (lying (M.letters memory.old) (places lines.old)) pair.receiver pair.sender letter.entry.body.now) }
    ensures left { lying (M.letters memory.new) (places lines.new) ≡ posted (lying (M.letters memory.old) (places lines.old)) pair.receiver pair.sender (record { sets = letter.entry.sets; body = letter.entry.body.now }) }
    ensures untouched { M.fixed memory.new ≡ M.fixed memory.old }
{
    let record = Record::try_from(letter)?;
    let place = lines.add(pair).ok_or(Full)?;
    memory.store(place, record);
    Ok(())
}

// Takes the oldest letter of a pair out of memory whose places the lines tell.
#[tactic(auto, using(crate::proofs::Posts::take_left))]
pub fn take_from<M: Memory>(
    memory: &M,
    lines: &mut Lines,
    pair: Pair,
    buffer: &mut [u8],
) -> Option<Taken>
    ensures answer { result ≡ oldest (reached (lying (M.letters memory.now) (places lines.old)) pair.receiver pair.sender (length buffer.old)) }
    ensures left { lying (M.letters memory.now) (places lines.new) ≡ removed (lying (M.letters memory.now) (places lines.old)) pair.receiver pair.sender (length buffer.old) }
    ensures body { buffer.new ≡ written (reached (lying (M.letters memory.now) (places lines.old)) pair.receiver pair.sender (length buffer.old)) buffer.old }
{
    if buffer.len() < 16 {
        return None;
    }
    let place = lines.remove(pair)?;
    Some(memory.load(place).read(buffer))
}

// A post over one memory.
#[derive(Drop)]
pub struct MemoryPost<M> {
    memory: M,
    lines: Lines,
}

impl<M: Memory> MemoryPost<M> {
    // A post in which no letter waits. Whatever is then put and taken, no letter is lost and no two pairs are mixed.
    #[tactic(auto, using(crate::proofs::Runs::faithful))]
    pub fn new(memory: M) -> MemoryPost<M>
        ensures empty { lying (M.letters result.memory) (places result.lines) ≡ (λ i j. []) }
        ensures faithful { Faithful (lying (M.letters result.memory) (places result.lines)) }
        ensures same { result.memory ≡ memory }
    {
        let lines = Lines::new();
        MemoryPost { memory, lines }
    }

    // The memory, as the letters have left it.
    pub fn into_memory(self) -> M
        ensures { result ≡ self.memory }
    {
        self.memory
    }
}

impl<M: Memory> Post for MemoryPost<M> {
    ghost queues = { λ p. lying (M.letters p.memory) (places p.lines) };

    ghost Fixed = { M.Fixed };

    ghost fixed = { λ p. M.fixed p.memory };

    ghost lawful = { λ p. lawful (M.letters p.memory) p.lines (M.short p.memory) };

    fn put(&mut self, pair: Pair, letter: Letter<'_>) -> Result<(), Full> {
        put_in(&mut self.memory, &mut self.lines, pair, letter)
    }

    fn take(&mut self, pair: Pair, buffer: &mut [u8]) -> Option<Taken> {
        take_from(&self.memory, &mut self.lines, pair, buffer)
    }

    #[tactic(auto, using(crate::specs::Laws::counted))]
    fn count(&self, pair: Pair) -> u8 {
        self.lines.count(pair)
    }
}
