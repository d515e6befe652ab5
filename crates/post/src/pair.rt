// Pairs of sender and receiver, and their numbers.
ghost use Rattle.std.specs.Prelude.{◌≡◌, if◌then◌else◌, Some, None};
ghost use Rattle.post.specs.Queues.{valid};
ghost use Rattle.post.specs.Places.{pair};

// From whom a letter comes and to whom it goes, by task numbers; a number above 15 is no task's.
#[derive(Clone, Copy, PartialEq, Eq, Debug)]
pub struct Pair {
    pub sender: u8,
    pub receiver: u8,
}

impl Pair {
    // The pair's number, if there are such tasks; the pairs of one receiver follow one another.
    pub(crate) fn number(self) -> Option<usize>
        ensures { result ≡ (if valid self.receiver self.sender then Some (pair self.receiver self.sender) else None) }
    {
        if self.receiver > 15 || self.sender > 15 {
            return None;
        }
        Some(usize::from(self.receiver) * 16 + usize::from(self.sender))
    }
}
