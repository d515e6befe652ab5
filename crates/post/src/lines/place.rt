// The places of a post's memory.
ghost use Rattle.std.specs.Prelude.{◌≡◌, ℕ, ◌+◌, ◌*◌, ◌%◌, ◌<◌};

use std::marker::Model;

// One of 1,024 places, each of which holds a letter. Clauses see its number. It is an index, since letters lie in memory of
// a fixed size. The dispenser's `Lane` is alike and stays apart, which is plainer: no crate below both is one where a common
// type belongs.
#[derive(Clone, Copy, PartialEq, Eq, Debug)]
pub struct Place {
    number: usize,
}

impl Model for Place {
    ghost Value = { ℕ };

    ghost view = { λ place. place.number };

    ghost invariant = { λ place. place.number < 1024 };

    ghost inverse = { λ n. record { number = n } };
}

impl Place {
    // The place of a pair for a turn, round and round.
    pub(super) fn new(pair: usize, turn: usize) -> Place
        requires { pair < 256 }
        ensures { result ≡ pair * 4 + turn % 4 }
    {
        Place {
            number: pair * 4 + turn % 4,
        }
    }
}

// The place's number, as an index.
impl From<Place> for usize {
    ghost from_gives = { λ place n. (n ≡ place) × (n < 1024) };

    fn from(place: Place) -> usize {
        place.number
    }
}
