// Both sides of each edge: lanes 47 and 48, tags 63 and 64, quotas 3, 4 and 255, empty lanes, layers over layers.
use dispenser::Dispenser;
use dispenser::quota::Quota;
use dispenser::roll::Roll;
use dispenser::shuffle::Shuffle;
use sheet::{Deal, DealRefusal, Dealing, Sheet};
use std::test::Fail;

#[test]
fn roll_has_48_lanes(rt: HostRuntime) {
    let mut roll = Roll::new();
    for (lane, tag) in [
        (47, Some(61)),
        (47, Some(62)),
        (47, None),
        (48, None),
        (255, None),
        (45, Some(60)),
        (46, Some(63)),
    ] {
        assert_eq!(rt; roll.draw(lane), tag);
    }
}

#[test]
fn deals_are_refused_at_the_edges(rt: HostRuntime) {
    let mut deal = Deal::new();
    for (dealing, answer) in [
        (Dealing { tag: 63, lane: 47 }, Ok(())),
        (Dealing { tag: 64, lane: 47 }, Err(DealRefusal::NoSuchTag)),
        (Dealing { tag: 62, lane: 48 }, Err(DealRefusal::NoSuchLane)),
        (Dealing { tag: 64, lane: 48 }, Err(DealRefusal::NoSuchTag)),
        (Dealing { tag: 63, lane: 0 }, Err(DealRefusal::DealtBefore)),
    ] {
        assert_eq!(rt; deal.deal(dealing), answer);
    }
    assert_eq!(rt; u8::from(DealRefusal::DealtBefore), 2);
    let mut sheet = deal.finish();
    for (lane, tag) in [(0, None), (47, Some(63)), (47, None)] {
        assert_eq!(rt; sheet.draw(lane), tag);
    }
}

// Four tags in lane 2, the highest dealt first, and one in lane 1.
fn small_sheet() -> Result<Sheet, DealRefusal> {
    let mut deal = Deal::new();
    for dealing in [
        Dealing { tag: 40, lane: 2 },
        Dealing { tag: 30, lane: 2 },
        Dealing { tag: 20, lane: 2 },
        Dealing { tag: 10, lane: 2 },
        Dealing { tag: 0, lane: 1 },
    ] {
        deal.deal(dealing)?;
    }
    Ok(deal.finish())
}

fn four<D: Dispenser>(dispenser: &mut D) -> [Option<u8>; 4] {
    [2; 4].map(|lane| dispenser.draw(lane))
}

#[test]
fn sheet_gives_lowest_first(rt: HostRuntime) -> Result<(), Fail> {
    let mut sheet = small_sheet()?;
    assert_eq!(rt; four(&mut sheet), [Some(10), Some(20), Some(30), Some(40)]);
    assert_eq!(rt; sheet.draw(2), None);
    let opens = sheet.open_sets();
    assert_eq!(rt; opens.taking, 1);
    assert_eq!(rt; opens.adding, 0x0000_0100_4010_0400);
    Ok(())
}

#[test]
fn quota_counts_at_most_three(rt: HostRuntime) -> Result<(), Fail> {
    let three = [Some(10), Some(20), Some(30), None];
    for (most, tags) in [
        (0, [None; 4]),
        (2, [Some(10), Some(20), None, None]),
        (3, three),
        (4, three),
        (255, three),
    ] {
        assert_eq!(rt; four(&mut Quota::new(small_sheet()?, most)), tags);
    }
    Ok(())
}

#[test]
fn layers_pile_and_come_off(rt: HostRuntime) -> Result<(), Fail> {
    let mut pile = Quota::new(Shuffle::new(Quota::new(small_sheet()?, 3)), 1);
    for (lane, tag) in [(2, Some(3)), (2, None), (1, Some(17))] {
        assert_eq!(rt; pile.draw(lane), tag);
    }
    let mut shuffle = pile.into_below();
    assert_eq!(rt; shuffle.draw(2), Some(53));
    let mut quota = shuffle.into_below();
    for (lane, tag) in [(2, Some(30)), (2, None)] {
        assert_eq!(rt; quota.draw(lane), tag);
    }
    let mut sheet = quota.into_below();
    for (lane, tag) in [(2, Some(40)), (1, None)] {
        assert_eq!(rt; sheet.draw(lane), tag);
    }
    Ok(())
}
