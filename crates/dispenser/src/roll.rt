// The roll: every task has four tags of its own, by a formula.
ghost use Rattle.std.specs.Prelude.{◌≡◌, ◌/◌, ◌%◌};
ghost use Rattle.std.specs.List.{slice_get};
ghost use Rattle.dispenser.specs.Rolled.{choice_tags, full_roll, rolled, OpenByForm};
ghost use Rattle.dispenser.specs.Rolls.{rolled_lawful};

use crate::{Choice, Dispenser, Lane, OpenSets};

// How many tags of each lane are gone.
#[derive(Drop)]
pub struct Roll {
    used: [u8; 48],
}

impl Roll {
    #[tactic(auto, using(crate::specs::Rolls::rolled_none))]
    pub fn new() -> Roll
        ensures { rolled result.used ≡ full_roll }
    {
        Roll { used: [0; 48] }
    }
}

impl Dispenser for Roll {
    ghost meaning = { λ r. rolled r.used };

    ghost lawful = { λ x. rolled_lawful x.used };

    fn draw(&mut self, lane: u8) -> Option<u8> {
        let lane = Lane::new(lane)?;
        let used = self.used[usize::from(lane)];
        let tag = tag_at(lane, used)?;
        self.used[usize::from(lane)] = used + 1;
        Some(tag)
    }

    fn open_sets(&self) -> OpenSets {
        OpenSets {
            adding: 0x6666_6666_6666_6666,
            taking: 0x8888_8888_8888_8888,
        }
    }
}

// The roll's open sets hold every tag of the forms 4i + 1 and 4i + 2, and every tag of the form 4i + 3.
pub fn roll_is_open_by_form()
    ensures { OpenByForm }
{}

// The tag that the roll gives in a lane when it has given so many before.
fn tag_at(lane: Lane, given: u8) -> Option<u8>
    ensures { result ≡ slice_get (choice_tags (lane / 3) (lane % 3)) given }
{
    let task = lane.task();
    match (lane.choice(), given) {
        (Choice::Kept, 0) => Some(4 * task),
        (Choice::Taking, 0) => Some(4 * task + 3),
        (Choice::Adding, 0) => Some(4 * task + 1),
        (Choice::Adding, 1) => Some(4 * task + 2),
        _ => None,
    }
}
