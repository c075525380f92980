// The codes of data records and guide rows, and what each of them asks.
#![tactic(auto)]

ghost use Rattle.std.specs.Prelude.{◌≡◌};
ghost use Rattle.rules.specs.Records.{coded_of, filed_of, is_insert, is_migrate, stores, is_own, state_after};
ghost use Rattle.rules.specs.Rows.{row_code_of};

use calendar::Day;
use layout::{field, place};
use rules::{Code, RowCode, states};

// The code that a byte is, with the record's date.
fn coded(b: u8, day: Day) -> Option<(Code, Day)>
    ensures { result ≡ coded_of b day }
{
    match b {
        b'I' => Some((Code::Insert, day)),
        b'C' => Some((Code::Change, day)),
        b'D' => Some((Code::Delete, day)),
        b'U' => Some((Code::Unlock, day)),
        b'M' => Some((Code::Migrate, day)),
        _ => None,
    }
}

// The code and the date of a data record. A checked record has both.
#[tactic(auto, unfolding(rules::specs::Records::filed_of))]
pub fn filed(rec: &[u8]) -> Option<(Code, Day)>
    ensures { result ≡ filed_of rec.now }
{
    if rec.len() != place::RECORD_SIZE {
        return None;
    }
    let day = field::date(rec)?;
    coded(field::function(rec), day)
}

// The code of a guide row. A checked row has one.
#[tactic(auto, unfolding(rules::specs::Rows::row_code_of))]
pub fn row_code(row: &[u8]) -> Option<RowCode>
    ensures { result ≡ row_code_of row.now }
{
    if row.len() != place::ROW_SIZE {
        return None;
    }
    match field::row_function(row) {
        b'I' => Some(RowCode::Insert),
        b'D' => Some(RowCode::Delete),
        _ => None,
    }
}

pub fn is_insert(c: Code) -> bool
    ensures { result ≡ is_insert c }
{
    c == Code::Insert
}

pub fn is_migrate(c: Code) -> bool
    ensures { result ≡ is_migrate c }
{
    c == Code::Migrate
}

// I, C and M store the record.
pub fn does_store(c: Code) -> bool
    ensures { result ≡ stores c }
{
    matches!(c, Code::Insert | Code::Change | Code::Migrate)
}

// C, D and U are the holder's own.
pub fn is_own(c: Code) -> bool
    ensures { result ≡ is_own c }
{
    matches!(c, Code::Change | Code::Delete | Code::Unlock)
}

// The state of a slot that a record was accepted in.
pub fn state_after(c: Code) -> u8
    ensures { result ≡ state_after c }
{
    match c {
        Code::Insert | Code::Change | Code::Migrate => states::HELD,
        Code::Delete => states::RESTING,
        Code::Unlock => states::OPEN,
    }
}
