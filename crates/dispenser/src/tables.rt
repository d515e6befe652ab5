// What each tag becomes in a shuffle, and what each was below, as tables.
ghost use Rattle.std.specs.Prelude.{◌≡◌, ◌<◌};
ghost use Rattle.dispenser.specs.Shuffled.{moved, back};

const FORWARD: [u8; 64] = [
    17, 22, 27, 32, 37, 42, 47, 52, 57, 62, 3, 8, 13, 18, 23, 28, 33, 38, 43, 48, 53, 58, 63, 4, 9,
    14, 19, 24, 29, 34, 39, 44, 49, 54, 59, 0, 5, 10, 15, 20, 25, 30, 35, 40, 45, 50, 55, 60, 1, 6,
    11, 16, 21, 26, 31, 36, 41, 46, 51, 56, 61, 2, 7, 12,
];

const BACKWARD: [u8; 64] = [
    35, 48, 61, 10, 23, 36, 49, 62, 11, 24, 37, 50, 63, 12, 25, 38, 51, 0, 13, 26, 39, 52, 1, 14,
    27, 40, 53, 2, 15, 28, 41, 54, 3, 16, 29, 42, 55, 4, 17, 30, 43, 56, 5, 18, 31, 44, 57, 6, 19,
    32, 45, 58, 7, 20, 33, 46, 59, 8, 21, 34, 47, 60, 9, 22,
];

// Two functions: one over a table that is handed in is no plainer, since each table has a rule of its own to promise.
#[tactic(auto, using(crate::specs::Shuffles::forward_at))]
pub(crate) fn forward(tag: u8) -> u8
    requires { tag < 64 }
    ensures { result ≡ moved tag }
{
    FORWARD[usize::from(tag)]
}

#[tactic(auto, using(crate::specs::Shuffles::backward_at))]
pub(crate) fn backward(tag: u8) -> u8
    requires { tag < 64 }
    ensures { result ≡ back tag }
{
    BACKWARD[usize::from(tag)]
}
