// Cases of the guide row: the position of its first fault, or 0. What the good row holds is not run again.
use crate::cases;
use crate::made::{Change, Kind, Line};
use layout::table;
use std::io;

// A row of this parity, from Low to High.
fn row(rt: &impl Print, parity: &str, low: &str, high: &str) -> io::Result<()> {
    let from = Change::new("from", table::LOW, low);
    let to = Change::new("to", table::HIGH, high);
    let of = Change::new("parity", table::PARITY, parity);
    let line = Line::good(Kind::Guide).with(from).with(to).with(of);
    println!(rt; "row {parity} {from} {to}: {}", cases::outcome(&line))
}

// The same for each item of a list, which has a dash between Low and High.
fn spans(rt: &impl Print, parity: &str, list: &str) -> io::Result<()> {
    for span in list.split('|') {
        if let Some((low, high)) = span.split_once('-') {
            row(rt, parity, low, high)?;
        }
    }
    Ok(())
}

fn every_span(rt: &impl Print) -> io::Result<()> {
    // Low is at most High, as numbers; they are compared where both can be read.
    spans(
        rt,
        "B",
        "5-5|5-4|9-10|10-9|12345678-12345678|1-123456789|123456789-123456789",
    )?;
    spans(rt, "B", "x-y|x-9|9-y|-9|9-|-| 1-9|1 1-99")?;
    // For O both ends are odd, for E both even.
    spans(rt, "O", "1-9|2-9|1-8|0001-09|0-0")?;
    spans(rt, "E", "2-8|1-8|2-9|0-0")?;
    spans(rt, "B", "1-9|2-9|1-8|2-8")?;
    spans(rt, "X", "1-9")?;
    spans(rt, "o", "1-9")?;
    // The fault of High comes before that of the parity, that of Low before both.
    spans(rt, "X", "9-1|x-9")?;
    spans(rt, "O", "4-2")
}

fn fields(rt: &impl Print) -> io::Result<()> {
    cases::fields(
        rt,
        Kind::Guide,
        "Prefix=N|EN| N;Street=Main;Suffix;Post=W|EN| N;Low;High;Community;State=Or;parity;\
        ESN=083|12345|8 3|8A| 83;free;Function=D|C|U|M|i;star=x",
    )
}

// A change of a row with this code.
fn coded(rt: &impl Print, code: &str, change: Change) -> io::Result<()> {
    let function = Change::new("Function", table::ROW_FUNCTION, code);
    cases::two(rt, Kind::Guide, function, change)
}

// D spares a row nothing.
fn blanks_in_d(rt: &impl Print) -> io::Result<()> {
    for (name, field) in [
        ("Street", table::ROW_STREET),
        ("Community", table::ROW_COMMUNITY),
        ("State", table::ROW_STATE),
        ("Low", table::LOW),
        ("High", table::HIGH),
        ("ESN", table::ROW_ESN),
    ] {
        coded(rt, "D", Change::new(name, field, ""))?;
    }
    Ok(())
}

pub fn run(rt: &impl Print) -> io::Result<()> {
    cases::sample(rt, Kind::Guide)?;
    fields(rt)?;
    every_span(rt)?;
    blanks_in_d(rt)?;
    coded(rt, "C", Change::new("State", table::ROW_STATE, "Or"))?;
    for n in [199, 127, 0] {
        cases::short(rt, Kind::Guide, n)?;
    }
    Ok(())
}
