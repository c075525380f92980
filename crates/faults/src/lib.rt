// A whole line of a file: the first fault of a record, of either version, and of a row.
#![tactic(auto)]

ghost use Rattle.std.specs.Prelude.{◌≡◌};
ghost use Rattle.layout.specs.Tables.{data_record, narrow_record, guide_row};
ghost use Rattle.layout.specs.Rules.{is_lax, record_fault, row_fault};

use layout::field;
use layout::table::{NARROW, RECORD, ROW};
use lines::check;
use text::Class;

mod look;

// D and U may leave some fields blank.
fn is_lax_code(b: u8) -> bool
    ensures { result ≡ is_lax b }
{
    matches!(b, b'D' | b'U')
}

// The first fault of a data record. Nearly all records are seen to be good, and a fault is sought only in the others; one look at
// all bytes of a record at a time spares a look at those of each field.
#[tactic(auto, unfolding(layout::specs::Rules::record_fault))]
pub fn record_fault(rec: &[u8]) -> usize
    ensures { result ≡ record_fault data_record rec.now }
{
    let lax = is_lax_code(field::function(rec));
    if text::all_in(rec, Class::Printable) && look::is_good_record(lax, rec) {
        return 0;
    }
    check::first_fault(&RECORD, lax, rec)
}

// The first fault of a data record of Version 1: there are few of them, and each is walked by its table.
#[tactic(auto, unfolding(layout::specs::Rules::record_fault))]
pub fn narrow_fault(rec: &[u8]) -> usize
    ensures { result ≡ record_fault narrow_record rec.now }
{
    check::first_fault(&NARROW, is_lax_code(field::function(rec)), rec)
}

// The first fault of a guide row, in the same way as that of a data record.
#[tactic(auto, unfolding(layout::specs::Rules::row_fault))]
pub fn row_fault(row: &[u8]) -> usize
    ensures { result ≡ row_fault guide_row row.now }
{
    if text::all_in(row, Class::Printable) && look::is_good_row(row) {
        return 0;
    }
    check::first_fault(&ROW, false, row)
}
