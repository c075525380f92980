// The answers to a data record and to a guide row, each with when it is given. `specs/` has both tables.
ghost use Rattle.std.specs.Prelude.{◌≡◌};
ghost use Rattle.rules.specs.Answering.{undone_number};

// The answer byte of a line that was done.
pub const DONE: u8 = 0;

// Why a line was not done.
#[derive(Clone, Copy, PartialEq, Eq)]
pub enum Undone {
    // "record date after the header's date"
    AfterHeader,

    // "I, number held or open"
    AlreadyThere,

    // "C, D, U, M, number absent or resting"
    NotThere,

    // "M, held"
    StillHeld,

    // "C, D, U, open"
    Open,

    // "C, D, U, held, Company ID differs from the slot's"
    OtherCompany,

    // "date before the slot's day; for I on a resting number, same day or before"
    TooEarly,

    // "I, C, M: no guide row covers the address"
    NoRow,

    // "I, C, M: ESN not blank and differs from that of the lowest covering row"
    OtherEsn,

    // "I, absent: no free slot, and no resting slot at least 90 days before the header's date"
    NoSlot,

    // guide I: "some house number is covered by it and by a present row of the same street fields"
    Clash,

    // guide I: "no free slot"
    GuideFull,

    // guide D: "no row has the same street fields, Low and High as numbers, parity and ESN bytes"
    NoSuchRow,

    // guide D: "a held or open entry is covered by the lowest such row"
    RowInUse,
}

impl Undone {
    // The answer byte.
    pub fn number(self) -> u8
        ensures { result ≡ undone_number self }
    {
        match self {
            Undone::AfterHeader => 11,
            Undone::AlreadyThere => 12,
            Undone::NotThere => 13,
            Undone::StillHeld => 14,
            Undone::Open => 15,
            Undone::OtherCompany => 16,
            Undone::TooEarly => 17,
            Undone::NoRow => 18,
            Undone::OtherEsn => 19,
            Undone::NoSlot => 20,
            Undone::Clash => 21,
            Undone::GuideFull => 22,
            Undone::NoSuchRow => 23,
            Undone::RowInUse => 24,
        }
    }
}
