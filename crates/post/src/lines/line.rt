// The line of one pair.
ghost use Rattle.std.specs.Prelude.{◌≡◌, ◌+◌, ◌%◌, ◌<◌, ◌≤◌, nat_lt};

// Its letters have turns that follow one another, the oldest having the first; how many letters wait. A first and a count in
// place of a list, since letters lie in memory of a fixed size.
#[derive(Clone, Copy)]
pub(super) struct Line {
    first: u8,
    pub(super) count: u8,
    ghost small: { first < 4 },
    ghost few: { count ≤ 4 },
}

impl Line {
    // No letter waits.
    pub(super) fn new() -> Line
        ensures { (result.first ≡ 0) × (result.count ≡ 0) }
    {
        Line { first: 0, count: 0 }
    }

    pub(super) fn is_full(self) -> bool
        ensures { result ≡ nat_lt 3 self.count }
    {
        self.count > 3
    }

    pub(super) fn oldest(self) -> usize
        requires { 0 < self.count }
        ensures { result ≡ self.first }
    {
        usize::from(self.first)
    }

    // The turn after the newest letter's.
    pub(super) fn next(self) -> usize
        ensures { result ≡ self.first + self.count }
    {
        usize::from(self.first + self.count)
    }

    pub(super) fn one_more(self) -> Line
        requires { self.count < 4 }
        ensures { (result.first ≡ self.first) × (result.count ≡ self.count + 1) }
    {
        Line {
            first: self.first,
            count: self.count + 1,
        }
    }

    // Without the oldest letter. Turns are kept small.
    pub(super) fn one_less(self) -> Line
        requires { 0 < self.count }
        ensures { (result.first ≡ (self.first + 1) % 4) × (result.count + 1 ≡ self.count) }
    {
        Line {
            first: (self.first + 1) % 4,
            count: self.count - 1,
        }
    }
}
