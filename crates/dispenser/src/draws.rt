// Many draws in a row, and what holds over every such run.
ghost use Rattle.std.specs.Prelude.{◌≡◌};
ghost use Rattle.dispenser.specs.Meaning.{first, drawn};
ghost use Rattle.dispenser.specs.Draws.{lanes_of, answered, after, NeverTwice, OwnLanesOnly};

use crate::Dispenser;

// A lane that is drawn on, and the tag that was answered.
#[derive(Clone, Copy)]
pub struct Draw {
    pub lane: u8,
    pub tag: Option<u8>,
}

// Draws on each lane of the list in turn and writes down each answer.
#[tactic(auto, using(crate::proofs::Runs::never_twice, crate::proofs::Runs::own_lanes_only))]
pub fn draw_all<D: Dispenser>(dispenser: &mut D, draws: &mut [Draw])
    ensures answers { draws.new ≡ answered (D.meaning dispenser.old) (lanes_of draws.old) }
    ensures left { D.meaning dispenser.new ≡ after (D.meaning dispenser.old) (lanes_of draws.old) }
    ensures fresh { NeverTwice (D.meaning dispenser.old) }
    ensures own { OwnLanesOnly (D.meaning dispenser.old) }
{
    for draw in draws.iter_mut() {
        *draw = ask(dispenser, draw.lane);
    }
}

fn ask<D: Dispenser>(dispenser: &mut D, lane: u8) -> Draw
    ensures answer { result ≡ record { lane = lane; tag = first ((D.meaning dispenser.old).lane lane) } }
    ensures left { D.meaning dispenser.new ≡ drawn (D.meaning dispenser.old) lane }
{
    Draw {
        lane,
        tag: dispenser.draw(lane),
    }
}
