// What whoever lent the memory knows of it once the post is let go.
ghost use Rattle.std.specs.Prelude.{◌≡◌, ◌≤◌, length, drop};

use band::Band;
use post::{Letter, LetterSets, Pair, Post, Record};
use rack::Rack;
use std::test::Fail;

const PAIR: Pair = Pair {
    sender: 1,
    receiver: 2,
};

fn letter() -> Letter<'static> {
    let sets = LetterSets::default();
    Letter { sets, body: b"hi" }
}

fn put_into_rack(records: &mut [Record])
    requires { 1024 ≤ length records.old }
    ensures { drop 1024 records.new ≡ drop 1024 records.old }
{
    let mut rack = Rack::new(records);
    let _ = rack.put(PAIR, letter());
}

fn put_into_band(bytes: &mut [u8])
    requires { 50176 ≤ length bytes.old }
    ensures { drop 50176 bytes.new ≡ drop 50176 bytes.old }
{
    let mut band = Band::new(bytes);
    let _ = band.put(PAIR, letter());
}

fn make_rack(records: &mut [Record])
    requires { 1024 ≤ length records.old }
    ensures { records.new ≡ records.old }
{
    let _rack = Rack::new(records);
}

fn make_band(bytes: &mut [u8])
    requires { 50176 ≤ length bytes.old }
    ensures { bytes.new ≡ bytes.old }
{
    let _band = Band::new(bytes);
}

#[test]
fn lender_knows_what_is_left(rt: HostRuntime) -> Result<(), Fail> {
    let mut records = vec![in rt.alloc(); Record::blank(); 1025]?;
    Rack::check(&records)?;
    put_into_rack(&mut records);
    make_rack(&mut records);
    let mut bytes = vec![in rt.alloc(); 165u8; 50177]?;
    Band::check(&bytes)?;
    make_band(&mut bytes);
    put_into_band(&mut bytes);
    assert!(rt; bytes.len() == 50177);
    // the first letter's place of the pair, and what lies behind all places
    assert_eq!(rt; bytes[132 * 49 + 1], b'h');
    assert_eq!(rt; bytes[50176], 165);
    Ok(())
}
