// What the description's steps answer with. `specs/` says what taking a file is, in the order and the words of the description, and
// `proofs/` what follows from that. The only functions here give an answer and a refusal their numbers.
#![tactic(auto)]

use versions::Version;

pub mod answering;
pub mod refusing;
pub mod states;

// The kind of a file: a data file of one of the two versions, or a guide file.
#[derive(Clone, Copy)]
pub enum Kind {
    Data(Version),
    Guide,
}

// The code of a data record.
#[derive(Clone, Copy, PartialEq, Eq)]
pub enum Code {
    Insert,
    Change,
    Delete,
    Unlock,
    Migrate,
}

// The code of a guide row.
#[derive(Clone, Copy, PartialEq, Eq)]
pub enum RowCode {
    Insert,
    Delete,
}

// The lowest place that passes a test, if one does, and the number of places looked at.
#[derive(Clone, Copy)]
pub struct Sought {
    pub found: Option<usize>,
    pub looked: usize,
}

// What is told of a refused file, as the definitions name it; place and position are 0 but in 9. The code hands up `Refused`.
#[derive(Clone, Copy)]
pub struct Refusal {
    pub number: u32,
    pub place: u32,
    pub position: u32,
}

// What a take returns, laid out for C, which knows no enum with values: so are what a load file and a conversion return.
#[repr(C)]
#[derive(Clone, Copy)]
pub struct Taken {
    pub refusal: u32,
    pub place: u32,
    pub position: u32,
    pub records: u32,
    pub done: u32,
    pub undone: u32,
    pub last: u32,
}

// What a lookup answers, each a number, as it is packed for C; state and slot are 0 for an absent number, all but the refusal are 0 in a
// refusal.
#[derive(Clone, Copy)]
pub struct Seen {
    pub refusal: u32,
    pub state: u32,
    pub slot: u32,
    pub looked: u32,
}

// What writing a load file returns; the slot is 0 but in 27.
#[repr(C)]
#[derive(Clone, Copy)]
pub struct Loaded {
    pub refusal: u32,
    pub bytes: u32,
    pub entries: u32,
    pub slot: u32,
}

// What a conversion returns; the slot is 0 but in 28.
#[repr(C)]
#[derive(Clone, Copy)]
pub struct Converted {
    pub refusal: u32,
    pub slot: u32,
}
