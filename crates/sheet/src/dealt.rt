// What is dealt: the set of each lane, the two open sets, and the set of all tags dealt so far.
ghost use Rattle.std.specs.Prelude.{◌≡◌, ◌%◌, None, Some, IfOk, IfErr, if◌then◌else◌, nat_eq};
ghost use Rattle.sets.specs.Sets.{union};
ghost use Rattle.dispenser.specs.Choices.{code};
ghost use Rattle.sheet.specs.Dealing.{blank, fault, placed};

use crate::{DealRefusal, Dealing};
use dispenser::{Choice, Lane};

#[derive(Clone, Copy)]
pub(crate) struct Dealt {
    pub(crate) lanes: [u64; 48],
    pub(crate) adding: u64,
    pub(crate) taking: u64,
    pub(crate) all: u64,
}

impl Dealt {
    pub(crate) fn new() -> Dealt
        ensures { result ≡ blank }
    {
        Dealt {
            lanes: [0; 48],
            adding: 0,
            taking: 0,
            all: 0,
        }
    }

    // The lane, if there are such a tag and lane and the tag has none yet.
    pub(crate) fn check(&self, dealing: Dealing) -> Result<Lane, DealRefusal>
        ensures ok { IfOk result (λ l. (l ≡ dealing.lane) × (fault self.now dealing.tag dealing.lane ≡ None)) }
        ensures err { IfErr result (λ refusal. fault self.now dealing.tag dealing.lane ≡ Some refusal) }
    {
        if dealing.tag > 63 {
            return Err(DealRefusal::NoSuchTag);
        }
        let lane = Lane::new(dealing.lane).ok_or(DealRefusal::NoSuchLane)?;
        if sets::has(self.all, dealing.tag) {
            return Err(DealRefusal::DealtBefore);
        }
        Ok(lane)
    }

    pub(crate) fn place(&mut self, tag: u8, lane: Lane)
        ensures { self.new ≡ placed self.old tag lane }
    {
        let one = sets::only(tag);
        let at = usize::from(lane);
        self.lanes[at] = sets::union(self.lanes[at], one);
        self.adding = with_choice(self.adding, one, lane, Choice::Adding);
        self.taking = with_choice(self.taking, one, lane, Choice::Taking);
        self.all = sets::union(self.all, one);
    }
}

// The set with the tag, where the lane is of that choice.
fn with_choice(set: u64, one: u64, lane: Lane, choice: Choice) -> u64
    ensures { result ≡ (if nat_eq (lane % 3) (code choice) then union set one else set) }
{
    if lane.choice() == choice {
        sets::union(set, one)
    } else {
        set
    }
}
