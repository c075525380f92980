// Exhibit 10: the labels that are taken, in its order, and for each where its fields start in the data record (from 0), how many bytes
// they have, and the form of its value. Reading and writing both use it.
ghost use Rattle.std.specs.Prelude.{◌≡◌, ◌<◌, nat_eq};
ghost use Rattle.std.specs.Int.{from_le_bytes, w32};
ghost use Rattle.std.specs.List.{position};
ghost use Rattle.text.specs.Text.{part};
ghost use Rattle.tagged.specs.Rows.{IsRow};
ghost use Rattle.tagged.specs.declared.table.TheConstants.{ROWS};

use crate::form::Form;
use layout::place;

// A label with the `|` before it, and its place: where its fields start, how many bytes they have, and the form of its value.
#[derive(Clone, Copy)]
pub struct Row {
    pub label: [u8; 4],
    pub at: usize,
    pub size: usize,
    pub form: Form,
}

// How many labels there are, and how many letters each has.
pub const COUNT: usize = 28;

pub const LETTERS: usize = 3;

static ROWS: [Row; COUNT] = [
    Row {
        label: *b"|FOC",
        at: place::FUNCTION_AT,
        size: place::FUNCTION_SIZE,
        form: Form::Plain,
    },
    Row {
        label: *b"|CPN",
        at: place::NPA_AT,
        size: place::NUMBER_SIZE,
        form: Form::Ten,
    },
    Row {
        label: *b"|HNO",
        at: place::HOUSE_AT,
        size: place::HOUSE_SIZE,
        form: Form::Plain,
    },
    Row {
        label: *b"|HNS",
        at: place::HOUSE_SUFFIX_AT,
        size: place::HOUSE_SUFFIX_SIZE,
        form: Form::Plain,
    },
    Row {
        label: *b"|PRD",
        at: place::PREFIX_AT,
        size: place::PREFIX_SIZE,
        form: Form::Plain,
    },
    Row {
        label: *b"|STN",
        at: place::STREET_NAME_AT,
        size: place::STREET_NAME_SIZE,
        form: Form::Plain,
    },
    Row {
        label: *b"|STS",
        at: place::STREET_SUFFIX_AT,
        size: place::STREET_SUFFIX_SIZE,
        form: Form::Plain,
    },
    Row {
        label: *b"|POD",
        at: place::POST_AT,
        size: place::POST_SIZE,
        form: Form::Plain,
    },
    Row {
        label: *b"|MCN",
        at: place::COMMUNITY_AT,
        size: place::COMMUNITY_SIZE,
        form: Form::Plain,
    },
    Row {
        label: *b"|STA",
        at: place::STATE_AT,
        size: place::STATE_SIZE,
        form: Form::Plain,
    },
    Row {
        label: *b"|LOC",
        at: place::LOCATION_AT,
        size: place::LOCATION_SIZE,
        form: Form::Plain,
    },
    Row {
        label: *b"|NAM",
        at: place::CUSTOMER_NAME_AT,
        size: place::CUSTOMER_NAME_SIZE,
        form: Form::Plain,
    },
    Row {
        label: *b"|CLS",
        at: place::CLASS_AT,
        size: place::CLASS_SIZE,
        form: Form::Plain,
    },
    Row {
        label: *b"|TYS",
        at: place::TYPE_AT,
        size: place::TYPE_SIZE,
        form: Form::Plain,
    },
    Row {
        label: *b"|EXC",
        at: place::EXCHANGE_AT,
        size: place::EXCHANGE_SIZE,
        form: Form::Plain,
    },
    Row {
        label: *b"|ESN",
        at: place::ESN_AT,
        size: place::ESN_SIZE,
        form: Form::Plain,
    },
    Row {
        label: *b"|MTN",
        at: place::MAIN_NPA_AT,
        size: place::MAIN_SIZE,
        form: Form::Ten,
    },
    Row {
        label: *b"|ORD",
        at: place::ORDER_AT,
        size: place::ORDER_SIZE,
        form: Form::Plain,
    },
    Row {
        label: *b"|CPD",
        at: place::DATE_AT,
        size: place::DATE_SIZE,
        form: Form::CalendarDate,
    },
    Row {
        label: *b"|COI",
        at: place::COUNTY_AT,
        size: place::COUNTY_SIZE,
        form: Form::Plain,
    },
    Row {
        label: *b"|CPF",
        at: place::COMPANY_AT,
        size: place::COMPANY_SIZE,
        form: Form::Plain,
    },
    Row {
        label: *b"|ZIP",
        at: place::ZIP_AT,
        size: place::ZIP_BOTH_SIZE,
        form: Form::Postal,
    },
    Row {
        label: *b"|CUS",
        at: place::CUSTOMER_CODE_AT,
        size: place::CUSTOMER_CODE_SIZE,
        form: Form::Plain,
    },
    Row {
        label: *b"|CMT",
        at: place::COMMENTS_AT,
        size: place::COMMENTS_SIZE,
        form: Form::Plain,
    },
    Row {
        label: *b"|TAR",
        at: place::TAR_AT,
        size: place::TAR_SIZE,
        form: Form::Plain,
    },
    Row {
        label: *b"|GU1",
        at: place::GENERAL_USE_AT,
        size: place::GENERAL_USE_SIZE,
        form: Form::Plain,
    },
    Row {
        label: *b"|CEL",
        at: place::CELL_AT,
        size: place::CELL_SIZE,
        form: Form::Plain,
    },
    Row {
        label: *b"|SEC",
        at: place::SECTOR_AT,
        size: place::SECTOR_SIZE,
        form: Form::Plain,
    },
];

// Row k.
pub fn row_at(k: usize) -> &'static Row
    requires { k < 28 }
    ensures { IsRow k result.now }
{
    &ROWS[k]
}

// The row with this label.
pub fn find(label: [u8; 4]) -> Option<usize>
    ensures { result ≡ position (λ r. nat_eq (from_le_bytes w32 r.label) (from_le_bytes w32 label)) ROWS }
{
    ROWS.iter().position(|row| row.has(label))
}

impl Row {
    // Whether it has this label. Labels are compared as one number each.
    pub fn has(&self, label: [u8; 4]) -> bool
        ensures { result ≡ nat_eq (from_le_bytes w32 self.now.label) (from_le_bytes w32 label) }
    {
        u32::from_le_bytes(self.label) == u32::from_le_bytes(label)
    }

    // Its bytes of a record.
    pub fn field<'a>(&self, rec: &'a [u8]) -> &'a [u8]
        ensures { result.now ≡ part self.now.at self.now.size rec.now }
    {
        text::part_of(rec, self.at, self.size)
    }
}
