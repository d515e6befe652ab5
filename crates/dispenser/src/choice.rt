// What everyone may do with the tags of a lane: nothing, take them away from a label, or add them to one.
ghost use Rattle.std.specs.Prelude.{◌≡◌, Some};
ghost use Rattle.dispenser.specs.Choices.{code, choice_text};

use std::fmt;

#[derive(Clone, Copy, PartialEq, Eq, Debug)]
pub enum Choice {
    Kept,
    Taking,
    Adding,
}

impl Choice {
    // What a table calls it.
    pub fn name(self) -> &'static str
        ensures { result.now ≡ choice_text (code self) }
    {
        match self {
            Choice::Kept => "kept",
            Choice::Taking => "open to taking away",
            Choice::Adding => "open to adding",
        }
    }
}

impl fmt::Display for Choice {
    ghost output = { λ choice. Some (choice_text (code choice)) };

    fn fmt<W: fmt::Write>(&self, f: &mut fmt::Formatter<W>) -> fmt::Result {
        f.pad(self.name())
    }
}
