// The sheet: a dispenser whose tags are given to its lanes by hand, singly.
#![tactic(auto)]

ghost use Rattle.std.specs.Prelude.{◌≡◌, ℕ, List, None, Some, if◌then◌else◌, nat_eq};
ghost use Rattle.std.specs.Int.Count.{count_trailing_zeros};
ghost use Rattle.sets.specs.Sets.{without, only};
ghost use Rattle.sheet.specs.Dealing.{Sound, blank, fault, answer, left, sheet};
ghost use Rattle.sheet.specs.Hands.{tried, ByHand};
ghost use Rattle.sheet.specs.Laws;

mod dealt;
pub mod refusal;

use dealt::Dealt;
use dispenser::{Dispenser, Lane, OpenSets};
pub use refusal::DealRefusal;

// A tag, and the lane that it is dealt to.
#[derive(Clone, Copy, PartialEq, Eq, Debug)]
pub struct Dealing {
    pub tag: u8,
    pub lane: u8,
}

// A sheet, which takes no more tags.
#[derive(Drop)]
pub struct Sheet {
    dealt: Dealt,
    ghost sound: { ∥ Sound dealt ∥₁ },
}

// A sheet that is being dealt, and whose promises hold from the start. It is no dispenser yet.
#[derive(Drop)]
pub struct Deal {
    sheet: Sheet,
}

impl Deal {
    // Whatever deals are then tried, each tag lies where it was first dealt.
    pub fn new() -> Deal
        ensures blank { result.sheet.dealt ≡ blank }
        ensures by_hand { (deals : List (ℕ × ℕ)) → ByHand (tried result.sheet.dealt deals) deals }
    {
        let sheet = Sheet {
            dealt: Dealt::new(),
        };
        Deal { sheet }
    }

    // Gives the tag to the lane, if there are such a tag and lane and the tag has none yet.
    pub fn deal(&mut self, dealing: Dealing) -> Result<(), DealRefusal>
        ensures answer { result ≡ answer (fault self.old.sheet.dealt dealing.tag dealing.lane) }
        ensures left { self.new.sheet.dealt ≡ left self.old.sheet.dealt dealing.tag dealing.lane (fault self.old.sheet.dealt dealing.tag dealing.lane) }
    {
        let lane = self.sheet.dealt.check(dealing)?;
        self.sheet.dealt.place(dealing.tag, lane);
        Ok(())
    }

    pub fn finish(self) -> Sheet
        ensures { result ≡ self.sheet }
    {
        self.sheet
    }
}

impl Dispenser for Sheet {
    ghost meaning = { λ s. sheet s.dealt };

    ghost lawful = { λ x. Laws.lawful x.dealt x.sound };

    #[tactic(auto, using(crate::specs::Lists::tags_empty))]
    fn draw(&mut self, lane: u8) -> Option<u8> {
        let at = usize::from(Lane::new(lane)?);
        let set = self.dealt.lanes[at];
        let tag = lowest(set)?;
        self.dealt.lanes[at] = cleared(set, tag);
        Some(tag)
    }

    fn open_sets(&self) -> OpenSets {
        OpenSets {
            adding: self.dealt.adding,
            taking: self.dealt.taking,
        }
    }
}

// The lowest tag of the set. It is at most 63, so the cast loses nothing; `try_from` is no plainer, since its error could
// not come.
fn lowest(set: u64) -> Option<u8>
    ensures { result ≡ (if nat_eq set 0 then None else Some (count_trailing_zeros 64 set)) }
{
    if set == 0 {
        None
    } else {
        Some(set.trailing_zeros() as u8)
    }
}

fn cleared(set: u64, tag: u8) -> u64
    ensures { result ≡ without set (only tag) }
{
    sets::without(set, sets::only(tag))
}
