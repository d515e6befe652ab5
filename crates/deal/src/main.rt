// Deals a sheet by hand and draws from it and from the other dispensers, one line a draw.
#![tactic(auto)]

ghost use Rattle.std.specs.Prelude.{◌≡◌, None};

use dispenser::draws::{Draw, draw_all};
use dispenser::quota::Quota;
use dispenser::roll::Roll;
use dispenser::shuffle::Shuffle;
use dispenser::{Dispenser, Lane, OpenSets};
use sheet::{Deal, Dealing, Sheet};
use std::io;

const DEALS: [Dealing; 6] = [
    Dealing { tag: 9, lane: 2 },
    Dealing { tag: 4, lane: 2 },
    Dealing { tag: 40, lane: 2 },
    Dealing { tag: 33, lane: 47 },
    Dealing { tag: 5, lane: 0 },
    Dealing { tag: 63, lane: 1 },
];

// Two tasks draw in turn until their lanes are empty; then task 0 on its other lanes; there is no lane 48.
const LANES: [u8; 11] = [2, 47, 2, 47, 2, 47, 0, 0, 1, 1, 48];

fn main(rt: HostRuntime) -> io::Result<()> {
    let sheet = dealt(&rt)?;
    show(
        &rt,
        "a shuffle over a quota of 2 over the sheet",
        &mut Shuffle::new(Quota::new(sheet, 2)),
    )?;
    show(&rt, "the roll", &mut Roll::new())?;
    show(
        &rt,
        "a shuffle over the roll",
        &mut Shuffle::new(Roll::new()),
    )?;
    show(
        &rt,
        "a quota of 1 over the roll",
        &mut Quota::new(Roll::new(), 1),
    )
}

fn dealt(rt: &impl Print) -> io::Result<Sheet> {
    let mut deal = Deal::new();
    for dealing in DEALS {
        deal_one(rt, &mut deal, dealing)?;
    }
    // Tag 9 is dealt already.
    deal_one(rt, &mut deal, Dealing { tag: 9, lane: 0 })?;
    let sheet = deal.finish();
    println!(rt; "the sheet is finished")?;
    Ok(sheet)
}

fn deal_one(rt: &impl Print, deal: &mut Deal, dealing: Dealing) -> io::Result<()> {
    let Dealing { tag, lane } = dealing;
    match deal.deal(dealing) {
        Ok(()) => println!(rt; "tag {tag} to lane {lane}: dealt"),
        Err(refusal) => println!(rt; "tag {tag} to lane {lane}: refused {}", u8::from(refusal)),
    }
}

fn show<D: Dispenser>(rt: &impl Print, title: &str, dispenser: &mut D) -> io::Result<()> {
    let OpenSets { adding, taking } = dispenser.open_sets();
    println!(rt; "\n{title}")?;
    println!(rt; "  open to adding      {adding:016x}")?;
    println!(rt; "  open to taking away {taking:016x}")?;
    println!(rt; "  task  choice               lane  tag")?;
    let mut draws = LANES.map(on);
    draw_all(dispenser, &mut draws);
    for draw in draws {
        print_draw(rt, draw)?;
    }
    Ok(())
}

// A draw on the lane, not made yet.
fn on(lane: u8) -> Draw
    ensures { result ≡ record { lane = lane; tag = None } }
{
    Draw { lane, tag: None }
}

fn print_draw(rt: &impl Print, draw: Draw) -> io::Result<()> {
    let number = draw.lane;
    match Lane::new(number) {
        Some(lane) => print!(rt; "  {:>4}  {:<19}  {number:>4}", lane.task(), lane.choice()),
        None => print!(rt; "     -  {:<19}  {number:>4}", "-"),
    }?;
    match draw.tag {
        Some(tag) => println!(rt; "  {tag:>3}"),
        None => println!(rt; "    -"),
    }
}
