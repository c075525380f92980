// What a step is refused for. `specs/` says when each one stands, and `specs/Refusing` what a caller is told of it: a number and values.
ghost use Rattle.std.specs.Prelude.{◌≡◌};
ghost use Rattle.rules.specs.Refusing.{refusal_number, refusal_slot, refusal_of};

use crate::Refusal;

#[derive(Clone, Copy, PartialEq, Eq)]
pub enum Refused {
    // "register length or a slot unsound"
    Register,
    // "guide length or a slot unsound"
    Guide,
    // "file length isn't 400 + 512n (guide: 400 + 200n), n at most 9999"; 2026-01: "3 uses 240 and 320 for a Version 1 file"
    FileLength,
    // "answers buffer shorter than n"
    AnswersShort,
    // "header wrong"
    Header,
    // "cycle isn't the next"
    Cycle,
    // "trailer wrong, or its date or name differs from the header's"
    Trailer,
    // "trailer count isn't n"
    Count,
    // "a record breaks a field rule": "first bad record from 1, first byte of its first bad field"; the place is 0 for a record alone
    FieldRule { place: u32, position: u32 },
    // "that ten digits are given"
    NoNumber,
    // "the output is too short"
    OutputShort,
    // "date, name or cycle breaks the header's rules .. or the date is before an entry's day"
    LoadHeader,
    // 2026-01: "if a Version 2 field or the tail of a longer field isn't blank", with the lowest such entry's slot
    NoV1 { slot: u32 },
    // "a stored day above 25567 has no reading now and is reported by its slot"
    NoReading { slot: u32 },
    // "no `DAT` or newline"
    NoText,
    // "label not taken or cut short"
    Label,
    // "label twice"
    LabelTwice,
    // "value too long or with no Version 2 form"
    Value,
    // "when writing .., if a value contains `|`, a field without a label (`*` apart) isn't blank, .."
    NoTaggedForm,
}

impl Refused {
    pub fn number(self) -> u32
        ensures { result ≡ refusal_number self }
    {
        match self {
            Refused::Register => 1,
            Refused::Guide => 2,
            Refused::FileLength => 3,
            Refused::AnswersShort => 4,
            Refused::Header => 5,
            Refused::Cycle => 6,
            Refused::Trailer => 7,
            Refused::Count => 8,
            Refused::FieldRule { .. } => 9,
            Refused::NoNumber => 10,
            Refused::OutputShort => 25,
            Refused::LoadHeader => 26,
            Refused::NoV1 { .. } => 27,
            Refused::NoReading { .. } => 28,
            Refused::NoText => 33,
            Refused::Label => 34,
            Refused::LabelTwice => 35,
            Refused::Value => 36,
            Refused::NoTaggedForm => 37,
        }
    }

    // The slot that is told, 0 where none is.
    pub fn slot(self) -> u32
        ensures { result ≡ refusal_slot self }
    {
        match self {
            Refused::NoV1 { slot } | Refused::NoReading { slot } => slot,
            _ => 0,
        }
    }

    // Its number with the place and the position.
    pub fn told(self) -> Refusal
        ensures { result ≡ refusal_of self }
    {
        let (place, position) = match self {
            Refused::FieldRule { place, position } => (place, position),
            _ => (0, 0),
        };
        Refusal {
            number: self.number(),
            place,
            position,
        }
    }
}

// Where nothing is refused.
pub const NONE: u32 = 0;
