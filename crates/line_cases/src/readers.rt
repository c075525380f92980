// Cases of what is read from a line, and of what is written into one.
use crate::made::{Kind, Line};
use crate::out;
use crate::out::{Given, Outcome};
use layout::{field, table};
use std::io;

fn shown(rt: &impl Print, what: &str, bytes: &[u8]) -> io::Result<()> {
    print!(rt; "{what}")?;
    out::ends_in_bytes(rt, bytes)
}

// A number that a field spells, or that it spells none.
fn spelled(number: Option<u32>) -> Outcome {
    out::number_or(number, "no number")
}

fn of_record(rt: &impl Print) -> io::Result<()> {
    let line = Line::good(Kind::Data);
    let record = line.bytes();
    shown(rt, "number", field::number(record))?;
    shown(rt, "street", field::street(record))?;
    shown(rt, "place", field::place(record))?;
    shown(rt, "ESN", field::esn(record))?;
    shown(rt, "Company ID", field::company(record))?;
    println!(rt; "house: {}", spelled(field::house(record)))
}

fn of_row(rt: &impl Print) -> io::Result<()> {
    let line = Line::good(Kind::Guide);
    let row = line.bytes();
    shown(rt, "parity", &[field::parity(row)])?;
    shown(rt, "row street", field::row_street(row))?;
    shown(rt, "row place", field::row_place(row))?;
    shown(rt, "row ESN", field::row_esn(row))?;
    println!(rt; "low: {}", spelled(field::low(row)))?;
    println!(rt; "high: {}", spelled(field::high(row)))
}

// House Numbers: blank is 0.
fn houses(rt: &impl Print) -> io::Result<()> {
    for value in "1234      |0001234|12345678||123456789|1 1".split('|') {
        let house = Given {
            name: "house",
            value,
        };
        println!(rt; "{house}: {}", spelled(field::house_in(value.as_bytes())))?;
    }
    Ok(())
}

// Ends of a row: blank is none.
fn ends(rt: &impl Print) -> io::Result<()> {
    for value in "1201      |00099|12345678||123456789|1 1".split('|') {
        let end = Given { name: "end", value };
        println!(rt; "{end}: {}", spelled(field::end_in(value.as_bytes())))?;
    }
    Ok(())
}

fn allowed(rt: &impl Print, parity: u8, number: u32) -> io::Result<()> {
    let letter = char::from(parity);
    let is_allowed = field::allowed(parity, number);
    println!(rt;
        "parity `{letter}` allows `{number}`: {}",
        out::answer(is_allowed)
    )
}

fn parities(rt: &impl Print) -> io::Result<()> {
    for parity in [b'O', b'E', b'B'] {
        for number in 0..3 {
            allowed(rt, parity, number)?;
        }
    }
    allowed(rt, b'X', 1)
}

// Byte for byte: `83` and `083` differ.
fn same_esn(rt: &impl Print, a: &str, b: &str) -> io::Result<()> {
    let is_same = field::same_esn(a.as_bytes(), b.as_bytes());
    println!(rt; "same ESN, `{a}` and `{b}`: {}", out::answer(is_same))
}

// A blank ESN is filled, and nothing else is written.
fn filled(rt: &impl Print) -> io::Result<()> {
    let mut record = Line::good(Kind::Data);
    let mut meant = Line::good(Kind::Data);
    record.set(table::ESN, b"");
    meant.set(table::ESN, b"083");
    println!(rt;
        "blank ESN is one: {}",
        out::answer(field::has_esn(record.bytes()))
    )?;
    field::fill_esn(record.bytes_mut(), b"083  ");
    println!(rt;
        "filled ESN is one: {}",
        out::answer(field::has_esn(record.bytes()))
    )?;
    println!(rt;
        "filled, and the rest as it was: {}",
        out::answer(record.bytes() == meant.bytes())
    )
}

// Function becomes `I` and Source `C`, and nothing else is written.
fn marked(rt: &impl Print) -> io::Result<()> {
    let mut record = Line::good(Kind::Data);
    let mut meant = Line::good(Kind::Data);
    record.set(table::FUNCTION, b"M");
    meant.set(table::FUNCTION, b"I");
    meant.set(table::SOURCE, b"C");
    field::mark_for_load(record.bytes_mut());
    println!(rt;
        "marked for load, and the rest as it was: {}",
        out::answer(record.bytes() == meant.bytes())
    )
}

pub fn run(rt: &impl Print) -> io::Result<()> {
    of_record(rt)?;
    of_row(rt)?;
    houses(rt)?;
    ends(rt)?;
    parities(rt)?;
    same_esn(rt, "83   ", "83   ")?;
    same_esn(rt, "83   ", "083  ")?;
    filled(rt)?;
    marked(rt)
}
