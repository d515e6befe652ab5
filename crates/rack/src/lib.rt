// The rack: a post that keeps its letters as records in lent memory.
#![tactic(auto)]

ghost use Rattle.std.specs.Prelude.{◌≡◌, ℕ, ◌≤◌, List, [], length, drop};
ghost use Rattle.post.specs.Memory.{checked};
ghost use Rattle.post.specs.Places.{places, lying};
ghost use Rattle.post.specs.Queues.{room, kept_or_full, posted, reached, oldest, written, removed};
ghost use Rattle.post.specs.Runs.{Faithful};
ghost use Rattle.post.specs.Laws.{lawful};
ghost use Rattle.post.specs.declared.record.Record.{Record};
ghost use Rattle.rack.specs.Racked.{recorded};
ghost use Rattle.rack.specs.Short.{short};

mod records;

use post::{Full, Letter, Lines, Pair, Post, PostFault, Record, Taken};
pub use records::{LentRecords, Records};

// A post over the first 1,024 records of the memory.
// It holds the slice itself, and is no `MemoryPost`: of a slice that lies deeper in a struct, whoever lent it learns nothing
// but the length when the post is let go.
#[derive(Drop)]
pub struct Rack<'a> {
    records: &'a mut [Record],
    lines: Lines,
    ghost enough: { 1024 ≤ length records.now },
}

impl<'a> Rack<'a> {
    // Whether the memory suffices.
    pub fn check(records: &[Record]) -> Result<(), PostFault>
        ensures { result ≡ checked (length records.now) 1024 }
    {
        post::fault::check_size(records.len(), 1024)
    }

    // A rack in which no letter waits. Whatever is then put and taken, no letter is lost and no two pairs are mixed.
    // Asking comes first, and may be refused; making cannot fail then.
    #[tactic(auto, using(post::proofs::Runs::faithful))]
    pub fn new(records: &'a mut [Record]) -> Rack<'a>
        requires { 1024 ≤ length records.old }
        ensures empty { lying (recorded result.records.now) (places result.lines) ≡ (λ i j. []) }
        ensures faithful { Faithful (lying (recorded result.records.now) (places result.lines)) }
        ensures same { (result.records.now ≡ records.old) × (result.records.ghost_name ≡ records.entry.ghost_name) }
    {
        let lines = Lines::new();
        Rack { records, lines }
    }

    // The memory, as the letters have left it.
    pub fn into_memory(self) -> &'a mut [Record]
        ensures { (result.now ≡ self.entry.records.now) × (result.ghost_name ≡ self.entry.records.ghost_name) }
    {
        self.records
    }
}

impl<'a> Post for Rack<'a> {
    ghost queues = { λ r. lying (recorded r.records.now) (places r.lines) };

    ghost Fixed = { ℕ × List Record };

    ghost fixed = { λ r. (r.records.ghost_name, drop 1024 r.records.now) };

    ghost lawful = { λ r. lawful (recorded r.records.now) r.lines (short r.records.now) };

    fn put(&mut self, pair: Pair, letter: Letter<'_>) -> Result<(), Full> {
        put(self.records, &mut self.lines, pair, letter)
    }

    fn take(&mut self, pair: Pair, buffer: &mut [u8]) -> Option<Taken> {
        take(self.records, &mut self.lines, pair, buffer)
    }

    #[tactic(auto, using(post::specs::Laws::counted))]
    fn count(&self, pair: Pair) -> u8 {
        self.lines.count(pair)
    }
}

// Functions of the two parts, since only of a slice that is a parameter is it known what `Records` leaves in it.

fn put(
    records: &mut [Record],
    lines: &mut Lines,
    pair: Pair,
    letter: Letter<'_>,
) -> Result<(), Full>
    requires { 1024 ≤ length records.old }
    ensures answer { result ≡ kept_or_full (room (lying (recorded records.old) (places lines.old)) pair.receiver pair.sender letter.entry.body.now) }
    ensures left { lying (recorded records.new) (places lines.new) ≡ posted (lying (recorded records.old) (places lines.old)) pair.receiver pair.sender (record { sets = letter.entry.sets; body = letter.entry.body.now }) }
    ensures behind { drop 1024 records.new ≡ drop 1024 records.old }
{
    let mut memory = Records::new(records);
    post::put_in(&mut memory, lines, pair, letter)
}

fn take(records: &mut [Record], lines: &mut Lines, pair: Pair, buffer: &mut [u8]) -> Option<Taken>
    requires { 1024 ≤ length records.old }
    ensures answer { result ≡ oldest (reached (lying (recorded records.old) (places lines.old)) pair.receiver pair.sender (length buffer.old)) }
    ensures left { lying (recorded records.old) (places lines.new) ≡ removed (lying (recorded records.old) (places lines.old)) pair.receiver pair.sender (length buffer.old) }
    ensures body { buffer.new ≡ written (reached (lying (recorded records.old) (places lines.old)) pair.receiver pair.sender (length buffer.old)) buffer.old }
    ensures same { records.new ≡ records.old }
{
    let memory = Records::new(records);
    post::take_from(&memory, lines, pair, buffer)
}
