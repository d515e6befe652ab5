// The shuffle: a layer over any dispenser, in which tag n becomes (5 * n + 17) mod 64.
ghost use Rattle.std.specs.Prelude.{◌≡◌, ◌^◌, ◌<◌, if◌then◌else◌};
ghost use Rattle.sets.specs.Sets.{has};
ghost use Rattle.dispenser.specs.Meaning.{first, drawn};
ghost use Rattle.dispenser.specs.Shuffled.{back, moved_set, shuffled, Inverse};
ghost use Rattle.dispenser.specs.Shuffles.{shuffled_lawful};

use crate::tables::{backward, forward};
use crate::{Dispenser, OpenSets};

#[derive(Drop)]
pub struct Shuffle<D> {
    below: D,
}

impl<D: Dispenser> Shuffle<D> {
    pub fn new(below: D) -> Shuffle<D>
        ensures { result.below ≡ below }
    {
        Shuffle { below }
    }

    // The dispenser below, as the draws have left it. A trait for this and the quota's is no plainer: each impl would repeat
    // the line.
    pub fn into_below(self) -> D
        ensures { result ≡ self.below }
    {
        self.below
    }
}

impl<D: Dispenser> Dispenser for Shuffle<D> {
    ghost meaning = { λ s. shuffled (D.meaning s.below) };

    ghost lawful = { λ x. shuffled_lawful (D.meaning x.below) (D.lawful x.below) };

    // The first two clauses are the trait's: beside a clause of its own a method has to repeat them.
    fn draw(&mut self, lane: u8) -> Option<u8>
        ensures answer { result ≡ first ((shuffled (D.meaning self.old.below)).lane lane) }
        ensures left { shuffled (D.meaning self.new.below) ≡ drawn (shuffled (D.meaning self.old.below)) lane }
        ensures below { D.meaning self.new.below ≡ drawn (D.meaning self.old.below) lane }
    {
        let tag = self.below.draw(lane)?;
        Some(forward(tag))
    }

    fn open_sets(&self) -> OpenSets {
        let OpenSets { adding, taking } = self.below.open_sets();
        OpenSets {
            adding: forward_set(adding),
            taking: forward_set(taking),
        }
    }
}

// Each of the two tables holds every tag once, and each undoes the other.
pub fn tables_are_inverse()
    ensures { Inverse }
{}

// Each tag whose former tag is in the set.
fn forward_set(tags: u64) -> u64
    ensures { result ≡ moved_set tags }
{
    (0..64).map(|n| forward_bit(tags, n)).fold(0, sets::union)
}

// The set of the tag n alone where its former tag is in the set, and else the empty set.
#[tactic(auto, unfolding(sets::specs::Sets::only))]
fn forward_bit(tags: u64, n: u8) -> u64
    requires { n < 64 }
    ensures { result ≡ (if has (back n) tags then 2 ^ n else 0) }
{
    if sets::has(tags, backward(n)) {
        sets::only(n)
    } else {
        0
    }
}
