// A letter as it lies in memory.
ghost use Rattle.std.specs.Prelude.{◌≡◌, ◌≤◌, length};

use crate::LetterSets;

mod bodies;

// Behind the first `len` bytes of the body anything may stand. The length is kept beside them, since letters lie in
// memory of a fixed size and nothing is allocated. No model hides those bytes: a post promises of what lies behind its
// places that not even they change.
#[derive(Clone, Copy)]
pub struct Record {
    sets: LetterSets,
    len: u8,
    body: [u8; 16],
    ghost short: { len ≤ 16 },
    ghost whole: { length body ≡ 16 },
}
