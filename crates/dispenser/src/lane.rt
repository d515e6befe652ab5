// A lane by its number: there are 48, three for each of 16 tasks.
ghost use Rattle.std.specs.Prelude.{◌≡◌, ℕ, ◌/◌, ◌%◌, ◌<◌, ◌↔◌, IsSome, IfSome};
ghost use Rattle.dispenser.specs.Choices.{code};

use crate::Choice;
use std::marker::Model;

// A number below 48; clauses see it. The post's `Place` is alike and stays apart, which is plainer: no crate below both is one
// where a common type belongs.
#[derive(Clone, Copy, PartialEq, Eq, Debug)]
pub struct Lane {
    number: u8,
}

impl Model for Lane {
    ghost Value = { ℕ };

    ghost view = { λ lane. lane.number };

    ghost invariant = { λ lane. lane.number < 48 };

    ghost inverse = { λ n. record { number = n } };
}

impl Lane {
    // A number above 47 is no lane. An Option and no TryFrom: each draw answers an Option too, so an error type would be made
    // only to be dropped there (`.ok()?`). std's `NonZero::new` has the same form.
    pub fn new(number: u8) -> Option<Lane>
        ensures there { IsSome result ↔ (number < 48) }
        ensures same { IfSome result (λ lane. lane ≡ number) }
    {
        if number < 48 {
            Some(Lane { number })
        } else {
            None
        }
    }

    pub fn task(self) -> u8
        ensures in_range { result < 16 }
        ensures third { result ≡ self / 3 }
    {
        self.number / 3
    }

    pub fn choice(self) -> Choice
        ensures { code result ≡ self % 3 }
    {
        // An arm for 2: with `_` in its place a draw on a roll takes a quarter more instructions.
        match self.number % 3 {
            0 => Choice::Kept,
            1 => Choice::Taking,
            2 => Choice::Adding,
            _ => unreachable!(),
        }
    }
}

// The lane's number, as an index.
impl From<Lane> for usize {
    ghost from_gives = { λ lane n. (n < 48) × (n ≡ lane) };

    fn from(lane: Lane) -> usize {
        usize::from(lane.number)
    }
}
