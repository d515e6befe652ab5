// What is lent, of any items, and posts over memory that a caller makes of it.
ghost use Rattle.std.specs.Prelude.{◌≡◌, ◌≤◌, length};

use crate::table::follow_all;
use band::{Bytes, LentBytes};
use post::{Lent, MemoryPost, PostFault, Record};
use rack::{LentRecords, Records};
use std::test::Fail;

// 1,024 records and 50,176 bytes are enough, and whoever lends them knows that they are as they were.

fn lend_records(records: &mut [Record])
    requires { 1024 ≤ length records.old }
    ensures { records.new ≡ records.old }
{
    let _lent = LentRecords::new(records);
}

fn lend_bytes(bytes: &mut [u8])
    requires { 50176 ≤ length bytes.old }
    ensures { bytes.new ≡ bytes.old }
{
    let _lent = LentBytes::new(bytes);
}

#[test]
fn lent_items_come_back(rt: HostRuntime) -> Result<(), Fail> {
    let mut items = [5u64, 6, 7];
    assert_eq!(rt;
        Lent::<u64, 4>::check(&items),
        Err(PostFault::TooLittleMemory)
    );
    Lent::<u64, 3>::check(&items)?;
    let lent = Lent::<u64, 3>::new(&mut items);
    assert_eq!(rt; lent.into_slice()[2], 7);
    Ok(())
}

#[test]
fn post_over_lent_records(rt: HostRuntime) -> Result<(), Fail> {
    let mut records = vec![in rt.alloc(); Record::blank(); 1024]?;
    LentRecords::check(&records)?;
    lend_records(&mut records);
    let mut post = MemoryPost::new(Records::from(LentRecords::new(&mut records)));
    follow_all(&mut post)?;
    let records = post.into_memory().items;
    assert_eq!(rt; records[1023].body(), [23u8; 16].as_slice());
    Ok(())
}

#[test]
fn post_over_lent_bytes(rt: HostRuntime) -> Result<(), Fail> {
    let mut bytes = vec![in rt.alloc(); 255u8; 50176]?;
    LentBytes::check(&bytes)?;
    lend_bytes(&mut bytes);
    let mut post = MemoryPost::new(Bytes::from(LentBytes::new(&mut bytes)));
    follow_all(&mut post)?;
    // the last byte of the last letter's integrity set
    let bytes = post.into_memory().items;
    assert_eq!(rt; bytes[50175], 255 - 23);
    Ok(())
}
