// A tag dispenser: 48 lanes of tags, and the two sets of tags whose capability everyone has.
#![tactic(auto)]

ghost use Rattle.std.specs.Prelude.{◌≡◌};
ghost use Rattle.dispenser.specs.Meaning.{Meaning, Lawful, first, drawn};

mod choice;
pub mod draws;
mod lane;
pub mod quota;
pub mod roll;
pub mod shuffle;
mod tables;

pub use choice::Choice;
pub use lane::Lane;

// The tags that everyone may add to a label, and those that everyone may take away.
#[derive(Clone, Copy)]
pub struct OpenSets {
    pub adding: u64,
    pub taking: u64,
}

// Task i has lane 3 * i for tags kept, 3 * i + 1 for tags open to taking away, 3 * i + 2 for tags open to adding.
pub trait Dispenser {
    ghost meaning: { Self → Meaning };

    // The first tag of the lane, which leaves it; none, and no change, where the lane is empty or above 47.
    fn draw(&mut self, lane: u8) -> Option<u8>
        ensures answer { result ≡ first ((meaning self.old).lane lane) }
        ensures left { meaning self.new ≡ drawn (meaning self.old) lane };

    fn open_sets(&self) -> OpenSets
        ensures { result ≡ (meaning self.now).opens };

    ghost lawful: { (x : Self) → Lawful (meaning x) };
}
