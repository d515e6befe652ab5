// Why a deal is refused.
ghost use Rattle.std.specs.Prelude.{◌≡◌};
ghost use Rattle.sheet.specs.Refusals.{number};

#[derive(Clone, Copy, PartialEq, Eq, Debug)]
pub enum DealRefusal {
    NoSuchTag,
    NoSuchLane,
    DealtBefore,
}

// The number under which the refusal is listed.
impl From<DealRefusal> for u8 {
    ghost from_gives = { λ refusal n. n ≡ number refusal };

    fn from(refusal: DealRefusal) -> u8 {
        match refusal {
            DealRefusal::NoSuchTag => 2,
            DealRefusal::NoSuchLane => 2,
            DealRefusal::DealtBefore => 2,
        }
    }
}
