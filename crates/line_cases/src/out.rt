// What a case writes: one line, that ends in what came of it.
use calendar::Day;
use layout::frame::Header;
use std::{fmt, io};

// A field by its name, and the bytes that it is given, in quotes that show its spaces.
#[derive(Clone, Copy)]
pub struct Given<'a> {
    pub name: &'a str,
    pub value: &'a str,
}

impl fmt::Display for Given<'_> {
    fn fmt<W: fmt::Write>(&self, f: &mut fmt::Formatter<W>) -> fmt::Result {
        let Given { name, value } = *self;
        if text::is_blank(value.as_bytes()) {
            write!(f, "{name} blank")
        } else {
            write!(f, "{name} `{value}`")
        }
    }
}

// What came of a case.
#[derive(Clone, Copy)]
pub enum Outcome {
    Number(u64),
    Word(&'static str),
    Header(Header),
}

impl fmt::Display for Outcome {
    fn fmt<W: fmt::Write>(&self, f: &mut fmt::Formatter<W>) -> fmt::Result {
        match *self {
            Outcome::Number(n) => write!(f, "{n}"),
            Outcome::Word(word) => write!(f, "{word}"),
            Outcome::Header(Header { day, cycle }) => {
                write!(f, "day {}, cycle {}", day_number(day), cycle.number())
            }
        }
    }
}

// A number, or a word where there is none.
pub fn number_or(number: Option<u32>, word: &'static str) -> Outcome {
    match number {
        Some(n) => Outcome::Number(u64::from(n)),
        None => Outcome::Word(word),
    }
}

pub fn answer(yes: bool) -> &'static str {
    if yes { "yes" } else { "no" }
}

// A day's number is its own: its four bytes, the high byte first, show it.
pub fn day_number(day: Day) -> u32 {
    u32::from_be_bytes(day.bytes())
}

// A line that ends in these bytes, in quotes.
pub fn ends_in_bytes(rt: &impl Print, bytes: &[u8]) -> io::Result<()> {
    print!(rt; ": `")?;
    rt.write_all(bytes)?;
    println!(rt; "`")
}
