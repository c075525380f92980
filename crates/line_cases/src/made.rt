// A good line of each kind, and the ways in which a case changes one. Where a field lies is taken from layout's tables.
use crate::out::Given;
use layout::place;
use layout::table::{HEADER, RECORD, ROW, TRAILER};
use std::fmt;
use std::ops::Range;

#[derive(Clone, Copy)]
pub enum Kind {
    Data,
    Guide,
    Head,
    Tail,
}

impl fmt::Display for Kind {
    fn fmt<W: fmt::Write>(&self, f: &mut fmt::Formatter<W>) -> fmt::Result {
        f.write_str(match self {
            Kind::Data => "record",
            Kind::Guide => "row",
            Kind::Head => "header",
            Kind::Tail => "trailer",
        })
    }
}

impl Kind {
    // Layout's table of its fields: three numbers for each, where it starts, from 1, how many bytes it has, and its rule.
    fn table(self) -> &'static [usize] {
        match self {
            Kind::Data => &RECORD,
            Kind::Guide => &ROW,
            Kind::Head => &HEADER,
            Kind::Tail => &TRAILER,
        }
    }

    // How many bytes a line has.
    fn size(self) -> usize {
        match self {
            Kind::Data => place::RECORD_SIZE,
            Kind::Guide => place::ROW_SIZE,
            Kind::Head | Kind::Tail => place::FRAME_SIZE,
        }
    }

    // Where a field of a line lies, from 0.
    pub fn field(self, k: usize) -> Range<usize> {
        match self.table().chunks_exact(3).nth(k) {
            Some([start, size, _]) => {
                let at = start.saturating_sub(1);
                at..at.saturating_add(*size)
            }
            _ => 0..0,
        }
    }

    // The fields of a good line in turn, with a bar between two. The row lies on the record's street, the trailer belongs to the header.
    fn values(self) -> &'static str {
        match self {
            Kind::Data => {
                "I|503|5550100|1234|1/2|NE|MAIN|ST|S|SALEM|OR|FLAT 2|A NAME|1|0|EX|83|\
                503|5550100|A1|022900|MULT|AB1| |97201|1234|G|X1|NONE|1.5|2.5|3|C|S|T||*"
            }
            Kind::Guide => "NE|MAIN|ST|S|1|9999|SALEM|OR|B|83|FREE|I|*",
            Kind::Head => "UHL|022900|A NAME|1|FREE|*",
            Kind::Tail => "UTL|022900|A NAME|        1|FREE|*",
        }
    }
}

// What a case gives to a field, by its place in layout's table.
#[derive(Clone, Copy)]
pub struct Change<'a> {
    pub field: usize,
    pub given: Given<'a>,
}

impl<'a> Change<'a> {
    pub fn new(name: &'a str, field: usize, value: &'a str) -> Change<'a> {
        Change {
            field,
            given: Given { name, value },
        }
    }
}

impl fmt::Display for Change<'_> {
    fn fmt<W: fmt::Write>(&self, f: &mut fmt::Formatter<W>) -> fmt::Result {
        self.given.fmt(f)
    }
}

#[derive(Clone, Copy)]
pub struct Line {
    kind: Kind,
    // As many as the longest line has.
    bytes: [u8; place::RECORD_SIZE],
}

impl Line {
    pub fn good(kind: Kind) -> Line {
        let mut line = Line {
            kind,
            bytes: [b' '; place::RECORD_SIZE],
        };
        for (k, value) in kind.values().split('|').enumerate() {
            line.set(k, value.as_bytes());
        }
        line
    }

    // A field becomes these bytes, and spaces behind them.
    pub fn set(&mut self, field: usize, value: &[u8]) {
        if let Some(part) = self.bytes.get_mut(self.kind.field(field)) {
            part.fill(b' ');
            text::put(part, 0, value);
        }
    }

    // Byte i of a field, from 1, becomes b.
    pub fn set_byte(&mut self, field: usize, i: usize, b: u8) {
        if let Some(part) = self.bytes.get_mut(self.kind.field(field)) {
            text::put(part, i.saturating_sub(1), &[b]);
        }
    }

    // The same line with this change.
    pub fn with(mut self, change: Change) -> Line {
        self.set(change.field, change.given.value.as_bytes());
        self
    }

    // The first n bytes.
    pub fn first(&self, n: usize) -> &[u8] {
        text::part_of(&self.bytes, 0, n)
    }

    pub fn bytes(&self) -> &[u8] {
        self.first(self.kind.size())
    }

    pub fn bytes_mut(&mut self) -> &mut [u8] {
        let size = self.kind.size().min(self.bytes.len());
        &mut self.bytes[..size]
    }

    pub fn kind(&self) -> Kind {
        self.kind
    }
}
