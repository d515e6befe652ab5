// A post: a queue of letters for each ordered pair of sender and receiver, with room for four.
#![tactic(auto)]

ghost use Rattle.std.specs.Prelude.{◌≡◌, length};
ghost use Rattle.post.specs.Queues.{Queues, Lawful, room, kept_or_full, posted, reached, oldest, written, removed};

pub mod fault;
mod lent;
mod letter;
pub mod lines;
mod memory;
mod pair;
mod record;

pub use fault::PostFault;
pub use lent::Lent;
pub use letter::{Full, Letter, LetterSets, Taken};
pub use lines::{Lines, Place};
pub use memory::{Memory, MemoryPost, put_in, take_from};
pub use pair::Pair;
pub use record::Record;

pub trait Post {
    ghost queues: { Self → Queues };

    // what no call changes: which memory was lent, and what of it the post has no use for
    ghost Fixed: { Type 0 };

    ghost fixed: { Self → Fixed };

    // The letter joins the end of its pair's queue if the pair exists, the body fits and there is room (`room`).
    fn put(&mut self, pair: Pair, letter: Letter<'_>) -> Result<(), Full>
        ensures answer { result ≡ kept_or_full (room (queues self.old) pair.receiver pair.sender letter.entry.body.now) }
        ensures left { queues self.new ≡ posted (queues self.old) pair.receiver pair.sender (record { sets = letter.entry.sets; body = letter.entry.body.now }) }
        ensures untouched { fixed self.new ≡ fixed self.old };

    // The head of the pair's queue leaves the post, and the buffer starts with its body. To a buffer that could not hold
    // every body, the queue seems empty (`reached`).
    fn take(&mut self, pair: Pair, buffer: &mut [u8]) -> Option<Taken>
        ensures answer { result ≡ oldest (reached (queues self.old) pair.receiver pair.sender (length buffer.old)) }
        ensures left { queues self.new ≡ removed (queues self.old) pair.receiver pair.sender (length buffer.old) }
        ensures body { buffer.new ≡ written (reached (queues self.old) pair.receiver pair.sender (length buffer.old)) buffer.old }
        ensures untouched { fixed self.new ≡ fixed self.old };

    // The length of the pair's queue; a pair that does not exist has none.
    fn count(&self, pair: Pair) -> u8
        ensures { result ≡ length (queues self.now pair.receiver pair.sender) };

    ghost lawful: { (x : Self) → Lawful (queues x) };
}
