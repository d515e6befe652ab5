// A letter in 49 bytes: the body's length, sixteen bytes of body, then the four sets, each with its high byte first.
ghost use Rattle.std.specs.Prelude.{◌≡◌, ◌≤◌, take, drop};
ghost use Rattle.sets.specs.Bytes.{value};
ghost use Rattle.post.specs.Records.{letter_in};
ghost use Rattle.band.specs.Banded.{packed, unpacked};

use post::{Letter, LetterSets, Record};

pub(crate) fn pack(written: &Record) -> [u8; 49]
    ensures bytes { result ≡ packed (letter_in written.now) }
    ensures back { unpacked (packed (letter_in written.now)) ≡ letter_in written.now }
{
    let sets = written.sets();
    let body = written.body();
    let mut cell = [0; 49];
    cell[0] = written.body_len();
    cell[17..25].copy_from_slice(&sets::to_bytes(sets.plus));
    cell[25..33].copy_from_slice(&sets::to_bytes(sets.minus));
    cell[33..41].copy_from_slice(&sets::to_bytes(sets.secrecy));
    cell[41..49].copy_from_slice(&sets::to_bytes(sets.integrity));
    cell[1..1 + body.len()].copy_from_slice(body);
    cell
}

pub(crate) fn unpack(cell: &[u8; 49]) -> Record
    ensures { letter_in result ≡ unpacked cell.now }
{
    let len = usize::from(cell[0].min(16));
    let sets = LetterSets {
        plus: set_at(cell, 17),
        minus: set_at(cell, 25),
        secrecy: set_at(cell, 33),
        integrity: set_at(cell, 41),
    };
    let body = &cell[1..1 + len];
    Record::try_from(Letter { sets, body }).unwrap()
}

fn set_at(cell: &[u8; 49], at: usize) -> u64
    requires { at ≤ 41 }
    ensures { result ≡ value (take 8 (drop at cell.now)) }
{
    sets::from_bytes(cell[at..at + 8].try_into().unwrap())
}
