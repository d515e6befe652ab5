// Lent records, as memory of a post. Rack and band each wrap what is lent, and no form is plainer: an impl of another crate's
// trait must name a type of its own crate.
ghost use Rattle.std.specs.Prelude.{◌≡◌, ℕ, ◌≤◌, List, length, drop, slice_set};
ghost use Rattle.rack.specs.Racked.{recorded};
ghost use Rattle.rack.specs.Short.{short};
ghost use Rattle.post.specs.declared.record.Record.{Record};

use post::{Lent, Memory, Place, Record};

// What a caller who wants a `MemoryPost` over such memory makes it of.
pub type LentRecords<'a> = Lent<'a, Record, 1024>;

// At least 1,024 records.
#[derive(Drop)]
pub struct Records<'a> {
    // public, so that a caller who has made a post of the memory gets the slice back
    pub items: &'a mut [Record],
    ghost enough: { 1024 ≤ length items.now },
}

impl<'a> Records<'a> {
    pub(crate) fn new(items: &'a mut [Record]) -> Records<'a>
        requires { 1024 ≤ length items.old }
        ensures { (result.items.now ≡ items.old) × (result.items.ghost_name ≡ items.entry.ghost_name) }
    {
        Records { items }
    }

    fn write(&mut self, place: Place, written: Record)
        ensures records { self.new.items.now ≡ slice_set self.old.items.now place written }
        ensures name { self.new.items.ghost_name ≡ self.old.items.ghost_name }
    {
        self.items[usize::from(place)] = written;
    }
}

// What is lent is known to suffice, so this cannot fail.
impl<'a> From<LentRecords<'a>> for Records<'a> {
    ghost from_gives = { λ lent made. made.items ≡ lent.items };

    fn from(lent: LentRecords<'a>) -> Records<'a> {
        Records { items: lent.items }
    }
}

impl<'a> Memory for Records<'a> {
    ghost letters = { λ r. recorded r.items.now };

    ghost Fixed = { ℕ × List Record };

    ghost fixed = { λ r. (r.items.ghost_name, drop 1024 r.items.now) };

    ghost short = { λ r k. short r.items.now k };

    fn load(&self, place: Place) -> Record {
        self.items[usize::from(place)]
    }

    fn store(&mut self, place: Place, written: Record) {
        self.write(place, written);
    }
}
