// The quota: a layer over any dispenser, which cuts each lane, at making, to its first tags.
ghost use Rattle.std.specs.Prelude.{◌≡◌, ◌-◌, ◌<◌, min, replicate, slice_index, slice_set};
ghost use Rattle.dispenser.specs.Meaning.{first, drawn};
ghost use Rattle.dispenser.specs.Cut.{cut, quota, passed_on};
ghost use Rattle.dispenser.specs.Cuts.{cut_lawful};

use crate::{Dispenser, Lane, OpenSets};

// How many tags each lane may still give.
#[derive(Clone, Copy)]
struct Allowance {
    left: [u8; 48],
}

impl Allowance {
    // The same for every lane, and 3 at most.
    fn new(most: u8) -> Allowance
        ensures { result.left ≡ replicate 48 (min most 3) }
    {
        Allowance {
            left: [most.min(3); 48],
        }
    }

    fn of(&self, lane: Lane) -> u8
        ensures { result ≡ slice_index self.now.left lane }
    {
        self.left[usize::from(lane)]
    }

    fn spend(&mut self, lane: Lane)
        requires { 0 < slice_index self.old.left lane }
        ensures { self.new.left ≡ slice_set self.old.left lane (slice_index self.old.left lane - 1) }
    {
        let left = self.of(lane);
        self.left[usize::from(lane)] = left - 1;
    }
}

#[derive(Drop)]
pub struct Quota<D> {
    below: D,
    allowance: Allowance,
}

impl<D: Dispenser> Quota<D> {
    // Each lane keeps its first tags: as many as `most` says, and 3 where it says more.
    pub fn new(below: D, most: u8) -> Quota<D>
        ensures meaning { cut (D.meaning result.below) result.allowance.left ≡ quota (D.meaning below) most }
        ensures below { result.below ≡ below }
    {
        Quota {
            below,
            allowance: Allowance::new(most),
        }
    }

    // The dispenser below, as the draws have left it. A trait for this and the shuffle's is no plainer: each impl would repeat
    // the line.
    pub fn into_below(self) -> D
        ensures { result ≡ self.below }
    {
        self.below
    }
}

impl<D: Dispenser> Dispenser for Quota<D> {
    ghost meaning = { λ q. cut (D.meaning q.below) q.allowance.left };

    ghost lawful = { λ x. cut_lawful (D.meaning x.below) x.allowance.left (D.lawful x.below) };

    // The first two clauses are the trait's: beside a clause of its own a method has to repeat them.
    fn draw(&mut self, lane: u8) -> Option<u8>
        ensures answer { result ≡ first ((cut (D.meaning self.old.below) self.old.allowance.left).lane lane) }
        ensures left { cut (D.meaning self.new.below) self.new.allowance.left ≡ drawn (cut (D.meaning self.old.below) self.old.allowance.left) lane }
        ensures below { D.meaning self.new.below ≡ passed_on (D.meaning self.old.below) self.old.allowance.left lane }
    {
        let known = Lane::new(lane)?;
        if self.allowance.of(known) == 0 {
            return None;
        }
        let tag = self.below.draw(lane)?;
        self.allowance.spend(known);
        Some(tag)
    }

    fn open_sets(&self) -> OpenSets {
        self.below.open_sets()
    }
}
