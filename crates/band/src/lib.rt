// The band: a post that packs its letters, 49 bytes each, into lent memory.
#![tactic(auto)]

ghost use Rattle.std.specs.Prelude.{◌≡◌, ℕ, ◌≤◌, List, [], length, drop};
ghost use Rattle.post.specs.Memory.{checked};
ghost use Rattle.post.specs.Places.{places, lying};
ghost use Rattle.post.specs.Queues.{room, kept_or_full, posted, reached, oldest, written, removed};
ghost use Rattle.post.specs.Runs.{Faithful};
ghost use Rattle.post.specs.Laws.{lawful};
ghost use Rattle.band.specs.Banded.{banded};
ghost use Rattle.band.specs.Short.{short};

mod bytes;
mod cells;

pub use bytes::{Bytes, LentBytes};
use post::{Full, Letter, Lines, Pair, Post, PostFault, Taken};

// A post over the first 50,176 bytes of the memory, 1,024 places of 49.
// It holds the slice itself, and is no `MemoryPost`: of a slice that lies deeper in a struct, whoever lent it learns nothing
// but the length when the post is let go.
#[derive(Drop)]
pub struct Band<'a> {
    bytes: &'a mut [u8],
    lines: Lines,
    ghost enough: { 50176 ≤ length bytes.now },
}

impl<'a> Band<'a> {
    // Whether the memory suffices.
    pub fn check(bytes: &[u8]) -> Result<(), PostFault>
        ensures { result ≡ checked (length bytes.now) 50176 }
    {
        post::fault::check_size(bytes.len(), 50176)
    }

    // A band in which no letter waits. Whatever is then put and taken, no letter is lost and no two pairs are mixed.
    // Asking comes first, and may be refused; making cannot fail then.
    #[tactic(auto, using(post::proofs::Runs::faithful))]
    pub fn new(bytes: &'a mut [u8]) -> Band<'a>
        requires { 50176 ≤ length bytes.old }
        ensures empty { lying (banded result.bytes.now) (places result.lines) ≡ (λ i j. []) }
        ensures faithful { Faithful (lying (banded result.bytes.now) (places result.lines)) }
        ensures same { (result.bytes.now ≡ bytes.old) × (result.bytes.ghost_name ≡ bytes.entry.ghost_name) }
    {
        let lines = Lines::new();
        Band { bytes, lines }
    }

    // The memory, as the letters have left it.
    pub fn into_memory(self) -> &'a mut [u8]
        ensures { (result.now ≡ self.entry.bytes.now) × (result.ghost_name ≡ self.entry.bytes.ghost_name) }
    {
        self.bytes
    }
}

impl<'a> Post for Band<'a> {
    ghost queues = { λ b. lying (banded b.bytes.now) (places b.lines) };

    ghost Fixed = { ℕ × List ℕ };

    ghost fixed = { λ b. (b.bytes.ghost_name, drop 50176 b.bytes.now) };

    ghost lawful = { λ b. lawful (banded b.bytes.now) b.lines (short b.bytes.now) };

    fn put(&mut self, pair: Pair, letter: Letter<'_>) -> Result<(), Full> {
        put(self.bytes, &mut self.lines, pair, letter)
    }

    fn take(&mut self, pair: Pair, buffer: &mut [u8]) -> Option<Taken> {
        take(self.bytes, &mut self.lines, pair, buffer)
    }

    #[tactic(auto, using(post::specs::Laws::counted))]
    fn count(&self, pair: Pair) -> u8 {
        self.lines.count(pair)
    }
}

// Functions of the two parts, since only of a slice that is a parameter is it known what `Bytes` leaves in it.

fn put(bytes: &mut [u8], lines: &mut Lines, pair: Pair, letter: Letter<'_>) -> Result<(), Full>
    requires { 50176 ≤ length bytes.old }
    ensures answer { result ≡ kept_or_full (room (lying (banded bytes.old) (places lines.old)) pair.receiver pair.sender letter.entry.body.now) }
    ensures left { lying (banded bytes.new) (places lines.new) ≡ posted (lying (banded bytes.old) (places lines.old)) pair.receiver pair.sender (record { sets = letter.entry.sets; body = letter.entry.body.now }) }
    ensures behind { drop 50176 bytes.new ≡ drop 50176 bytes.old }
{
    let mut memory = Bytes::new(bytes);
    post::put_in(&mut memory, lines, pair, letter)
}

fn take(bytes: &mut [u8], lines: &mut Lines, pair: Pair, buffer: &mut [u8]) -> Option<Taken>
    requires { 50176 ≤ length bytes.old }
    ensures answer { result ≡ oldest (reached (lying (banded bytes.old) (places lines.old)) pair.receiver pair.sender (length buffer.old)) }
    ensures left { lying (banded bytes.old) (places lines.new) ≡ removed (lying (banded bytes.old) (places lines.old)) pair.receiver pair.sender (length buffer.old) }
    ensures body { buffer.new ≡ written (reached (lying (banded bytes.old) (places lines.old)) pair.receiver pair.sender (length buffer.old)) buffer.old }
    ensures same { bytes.new ≡ bytes.old }
{
    let memory = Bytes::new(bytes);
    post::take_from(&memory, lines, pair, buffer)
}
