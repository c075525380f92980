// The forms of a case: a good line with something changed, and what came of it.
use crate::made::{Change, Kind, Line};
use crate::out::Outcome;
use layout::counter::Count;
use layout::table::{HEADER, TRAILER};
use lines::frame;
use std::io;

// A trailer beside the good header.
pub fn closed(trailer: &[u8]) -> Option<Count> {
    frame::trailer_in(&TRAILER, Line::good(Kind::Head).bytes(), trailer)
}

// What the checker of this kind of line says.
fn judged(kind: Kind, line: &[u8]) -> Outcome {
    match kind {
        Kind::Data => Outcome::Number(faults::record_fault(line) as u64),
        Kind::Guide => Outcome::Number(faults::row_fault(line) as u64),
        Kind::Head => match frame::header_in(&HEADER, line) {
            Some(header) => Outcome::Header(header),
            None => Outcome::Word("wrong"),
        },
        Kind::Tail => Outcome::Word(read_or_wrong(closed(line))),
    }
}

pub fn read_or_wrong(trailer: Option<Count>) -> &'static str {
    if trailer.is_some() { "read" } else { "wrong" }
}

// The same, of a line that is whole.
pub fn outcome(line: &Line) -> Outcome {
    judged(line.kind(), line.bytes())
}

// The good line itself.
pub fn sample(rt: &impl Print, kind: Kind) -> io::Result<()> {
    println!(rt; "{kind} sample: {}", outcome(&Line::good(kind)))
}

// A line with one change.
pub fn one(rt: &impl Print, kind: Kind, change: Change) -> io::Result<()> {
    println!(rt;
        "{kind} {change}: {}",
        outcome(&Line::good(kind).with(change))
    )
}

// A line with two.
pub fn two(rt: &impl Print, kind: Kind, change: Change, other: Change) -> io::Result<()> {
    let line = Line::good(kind).with(change).with(other);
    println!(rt; "{kind} {change}, {other}: {}", outcome(&line))
}

// Byte i of a field, from 1, is b.
pub fn byte(
    rt: &impl Print,
    kind: Kind,
    name: &str,
    field: usize,
    i: usize,
    b: u8,
) -> io::Result<()> {
    let mut line = Line::good(kind);
    line.set_byte(field, i, b);
    println!(rt; "{kind} {name}, byte {i} is {b:02x}: {}", outcome(&line))
}

// What any field can be: with a byte that none may hold, its first or its last, blank, and not left-justified.
fn any(rt: &impl Print, kind: Kind, name: &str, field: usize) -> io::Result<()> {
    let size = kind.field(field).len();
    byte(rt, kind, name, field, 1, 127)?;
    one(rt, kind, Change::new(name, field, ""))?;
    if 1 < size {
        byte(rt, kind, name, field, size, 127)?;
        one(rt, kind, Change::new(name, field, " A"))?;
    }
    Ok(())
}

// The cases of each field of a line, in the order of layout's table. The entries of the fields have a semicolon between two: a field's
// name, and behind an equals sign what else it may or may not hold, with a bar between two.
pub fn fields(rt: &impl Print, kind: Kind, entries: &str) -> io::Result<()> {
    for (field, entry) in entries.split(';').enumerate() {
        let mut words = entry.split(['=', '|']);
        let name = words.next().unwrap_or("");
        any(rt, kind, name, field)?;
        for value in words {
            one(rt, kind, Change::new(name, field, value))?;
        }
    }
    Ok(())
}

// The first n bytes of a line.
pub fn short(rt: &impl Print, kind: Kind, n: usize) -> io::Result<()> {
    println!(rt;
        "{kind} of {n} bytes: {}",
        judged(kind, Line::good(kind).first(n))
    )
}
