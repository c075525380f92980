// Cases of header and trailer: what a header says, whether a trailer is read, and its count.
use crate::made::{Change, Kind, Line};
use crate::{cases, out};
use layout::table;
use layout::table::TRAILER;
use lines::frame;
use std::io;

fn headers(rt: &impl Print) -> io::Result<()> {
    let kind = Kind::Head;
    cases::sample(rt, kind)?;
    cases::fields(
        rt,
        kind,
        "mark=UHX|UTL|uhl|UHL 1;date=010100|123199|022901|02290;company name=a name| A NAME;\
        cycle=000001|83|000083|999999|0|000000| 1|1 1|1A;free;star=x",
    )?;
    cases::short(rt, kind, 199)?;
    cases::short(rt, kind, 0)
}

fn trailers(rt: &impl Print) -> io::Result<()> {
    let kind = Kind::Tail;
    cases::sample(rt, kind)?;
    cases::fields(
        rt,
        kind,
        "mark=UTX|UHL;date=022901|030100;company name=B NAME|a name;\
        record count=       01|       00|000000000|000000001|1        |       1 |      1 1|       1A|       -1;\
        free;star=x",
    )?;
    cases::short(rt, kind, 199)?;
    cases::short(rt, kind, 0)
}

// A trailer whose record count is n, held against m.
fn count(rt: &impl Print, n: u32, m: usize) -> io::Result<()> {
    let mut digits = [b' '; 9];
    text::put_right(&mut digits, n);
    let mut trailer = Line::good(Kind::Tail);
    trailer.set(table::COUNT, &digits);
    let said = match cases::closed(trailer.bytes()) {
        Some(count) => out::answer(count.is(m)),
        None => "wrong",
    };
    println!(rt; "trailer record count `{n:>9}` is {m}: {said}")
}

fn counts(rt: &impl Print) -> io::Result<()> {
    for (n, m) in [
        (0, 0),
        (0, 1),
        (1, 1),
        (1, 0),
        (9999, 9999),
        (9999, 9998),
        (10000, 10000),
        (10000, 1000),
        (999999999, 999999999),
        (999999999, 99999999),
    ] {
        count(rt, n, m)?;
    }
    Ok(())
}

// The same change of both.
fn both(rt: &impl Print, change: Change) -> io::Result<()> {
    let header = Line::good(Kind::Head).with(change);
    let trailer = Line::good(Kind::Tail).with(change);
    let read = frame::trailer_in(&TRAILER, header.bytes(), trailer.bytes());
    println!(rt;
        "header and trailer {change}: {}",
        cases::read_or_wrong(read)
    )
}

pub fn run(rt: &impl Print) -> io::Result<()> {
    headers(rt)?;
    trailers(rt)?;
    counts(rt)?;
    both(rt, Change::new("date", table::FRAME_DATE, "030100"))?;
    both(rt, Change::new("date", table::FRAME_DATE, "022901"))?;
    both(rt, Change::new("company name", table::NAME, "B NAME"))?;
    both(rt, Change::new("company name", table::NAME, " A NAME"))
}
