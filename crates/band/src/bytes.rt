// Lent bytes, as memory of a post. Band and rack each wrap what is lent, and no form is plainer: an impl of another crate's
// trait must name a type of its own crate.
ghost use Rattle.std.specs.Prelude.{◌≡◌, ℕ, ◌*◌, ◌≤◌, List, length, drop};
ghost use Rattle.band.specs.Banded.{cell, stored, banded};
ghost use Rattle.band.specs.Short.{short};

use crate::cells;
use post::{Lent, Memory, Place, Record};

// What a caller who wants a `MemoryPost` over such memory makes it of.
pub type LentBytes<'a> = Lent<'a, u8, 50176>;

// At least 50,176 bytes.
#[derive(Drop)]
pub struct Bytes<'a> {
    // public, so that a caller who has made a post of the memory gets the slice back
    pub items: &'a mut [u8],
    ghost enough: { 50176 ≤ length items.now },
}

impl<'a> Bytes<'a> {
    pub(crate) fn new(items: &'a mut [u8]) -> Bytes<'a>
        requires { 50176 ≤ length items.old }
        ensures { (result.items.now ≡ items.old) × (result.items.ghost_name ≡ items.entry.ghost_name) }
    {
        Bytes { items }
    }

    fn cell(&self, place: Place) -> &[u8; 49]
        ensures { result.now ≡ cell self.now.items.now place }
    {
        let start = start_of(place);
        self.items[start..start + 49].try_into().unwrap()
    }

    fn write(&mut self, place: Place, cell: [u8; 49])
        ensures bytes { self.new.items.now ≡ stored self.old.items.now place cell }
        ensures name { self.new.items.ghost_name ≡ self.old.items.ghost_name }
    {
        let start = start_of(place);
        self.items[start..start + 49].copy_from_slice(&cell);
    }
}

// Where a place begins.
fn start_of(place: Place) -> usize
    ensures { result ≡ place * 49 }
{
    usize::from(place) * 49
}

// What is lent is known to suffice, so this cannot fail.
impl<'a> From<LentBytes<'a>> for Bytes<'a> {
    ghost from_gives = { λ lent made. made.items ≡ lent.items };

    fn from(lent: LentBytes<'a>) -> Bytes<'a> {
        Bytes { items: lent.items }
    }
}

impl<'a> Memory for Bytes<'a> {
    ghost letters = { λ b. banded b.items.now };

    ghost Fixed = { ℕ × List ℕ };

    ghost fixed = { λ b. (b.items.ghost_name, drop 50176 b.items.now) };

    ghost short = { λ b k. short b.items.now k };

    fn load(&self, place: Place) -> Record {
        cells::unpack(self.cell(place))
    }

    fn store(&mut self, place: Place, written: Record) {
        self.write(place, cells::pack(&written));
    }
}
