// Where a post keeps its letters: each pair has a line of four places, used in turn.
ghost use Rattle.std.specs.Prelude.{◌≡◌, [], length, if◌then◌else◌, Some, None};
ghost use Rattle.std.specs.List.{slice_get};
ghost use Rattle.post.specs.Places.{places, vacant, next, added, freed};

mod line;
mod place;

use crate::Pair;
use line::Line;
pub use place::Place;

// The line of each pair, by the pair's number.
#[derive(Drop)]
pub struct Lines {
    lines: [Line; 256],
}

impl Lines {
    pub fn new() -> Lines
        ensures { places result ≡ (λ r s. []) }
    {
        Lines {
            lines: [Line::new(); 256],
        }
    }

    // How many letters of a pair wait.
    pub fn count(&self, pair: Pair) -> u8
        ensures { result ≡ length (places self.now pair.receiver pair.sender) }
    {
        // `map_or` is no plainer: its closure would have to require that the number is below 256.
        match pair.number() {
            Some(number) => self.lines[number].count,
            None => 0,
        }
    }

    // The place for one letter more of a pair; none where four wait or there is no such pair.
    pub fn add(&mut self, pair: Pair) -> Option<Place>
        ensures answer { result ≡ (if vacant self.old pair.receiver pair.sender then Some (next self.old pair.receiver pair.sender) else None) }
        ensures left { places self.new ≡ added self.old pair.receiver pair.sender }
    {
        let number = pair.number()?;
        let line = self.lines[number];
        if line.is_full() {
            return None;
        }
        self.lines[number] = line.one_more();
        Some(Place::new(number, line.next()))
    }

    // The place of the oldest letter of a pair, which is free from now on; none where no letter waits.
    pub fn remove(&mut self, pair: Pair) -> Option<Place>
        ensures answer { result ≡ slice_get (places self.old pair.receiver pair.sender) 0 }
        ensures left { places self.new ≡ freed self.old pair.receiver pair.sender }
    {
        let number = pair.number()?;
        let line = self.lines[number];
        if line.count == 0 {
            return None;
        }
        self.lines[number] = line.one_less();
        Some(Place::new(number, line.oldest()))
    }
}
