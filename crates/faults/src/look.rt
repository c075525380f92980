// A look at a whole record or row, field by field, written out in the order of its table. Nearly all lines are good: it says so
// at once, with each place, length and rule known when it is compiled, and a fault is sought by the table only where it says no.
// The table decides, and so a look promises one way only: true means that the walk over the table finds nothing. False means
// nothing, and the walk is made: to answer false always would be right too, only slower.
ghost use Rattle.std.specs.Prelude.{◌≡◌, false, true, ◌+◌, ◌*◌, ◌<◌, length};
ghost use Rattle.text.specs.declared.Class.TheVariants.{Printable};
ghost use Rattle.text.specs.Text.{all_in};
ghost use Rattle.layout.specs.Tables.{data_record, guide_row};
ghost use Rattle.layout.specs.Tables.{function, prefix, location, main_npa, zip, z, row_prefix, low, row_community, parity, row_esn};
ghost use Rattle.layout.specs.Rules.{fault_in};
ghost use Rattle.faults.specs.Look.{fault_from};

use layout::table::{RECORD, ROW};
use layout::{field, place, table};
use lines::check;

// Whether field k of a line is there and keeps its rule, where all bytes of the line are printable. Inlined, so that at each call
// the numbers of the table stand in the code.
#[inline(always)]
#[tactic(auto, using(crate::proofs::LookLaws::field_good))]
fn is_good(fields: &[usize], k: usize, lax: bool, line: &[u8]) -> bool
    requires { 3 * k + 2 < length fields.now }
    ensures { result ≡ true → all_in Printable line.now ≡ true → fault_from k lax line.now fields.now ≡ fault_from (k + 1) lax line.now fields.now }
{
    let at = fields[3 * k];
    let n = fields[3 * k + 1];
    let i = check::from_zero(at);
    text::is_there(line, i, n)
        && check::rule_fault(at, fields[3 * k + 2], lax, line, text::part_of(line, i, n)) == 0
}

// Low, High and parity of a row, each end read once.
#[tactic(auto, using(crate::proofs::LookLaws::ends_good, crate::proofs::LookLaws::parity_good))]
fn is_range(row: &[u8]) -> bool
    ensures { result ≡ true → all_in Printable row.now ≡ true → (fault_from low false row.now guide_row ≡ fault_from row_community false row.now guide_row) × (fault_from parity false row.now guide_row ≡ fault_from row_esn false row.now guide_row) }
{
    if !text::is_there(row, place::PARITY_AT, 1) {
        return false;
    }
    let p = field::parity(row);
    match (field::low(row), field::high(row)) {
        (Some(low), Some(high)) if low <= high => field::allowed(p, low) && field::allowed(p, high),
        _ => false,
    }
}

// Function to House Suffix.
fn has_good_number(lax: bool, rec: &[u8]) -> bool
    ensures { result ≡ true → all_in Printable rec.now ≡ true → fault_from function lax rec.now data_record ≡ fault_from prefix lax rec.now data_record }
{
    is_good(&RECORD, table::FUNCTION, lax, rec)
        && is_good(&RECORD, table::NPA, lax, rec)
        && is_good(&RECORD, table::CALLING_NUMBER, lax, rec)
        && is_good(&RECORD, table::HOUSE_NUMBER, lax, rec)
        && is_good(&RECORD, table::HOUSE_SUFFIX, lax, rec)
}

// Prefix Directional to State.
fn has_good_street(lax: bool, rec: &[u8]) -> bool
    ensures { result ≡ true → all_in Printable rec.now ≡ true → fault_from prefix lax rec.now data_record ≡ fault_from location lax rec.now data_record }
{
    is_good(&RECORD, table::PREFIX, lax, rec)
        && is_good(&RECORD, table::STREET_NAME, lax, rec)
        && is_good(&RECORD, table::STREET_SUFFIX, lax, rec)
        && is_good(&RECORD, table::POST, lax, rec)
        && is_good(&RECORD, table::COMMUNITY, lax, rec)
        && is_good(&RECORD, table::STATE, lax, rec)
}

// Location to ESN.
fn has_good_customer(lax: bool, rec: &[u8]) -> bool
    ensures { result ≡ true → all_in Printable rec.now ≡ true → fault_from location lax rec.now data_record ≡ fault_from main_npa lax rec.now data_record }
{
    is_good(&RECORD, table::LOCATION, lax, rec)
        && is_good(&RECORD, table::CUSTOMER_NAME, lax, rec)
        && is_good(&RECORD, table::CLASS, lax, rec)
        && is_good(&RECORD, table::TYPE, lax, rec)
        && is_good(&RECORD, table::EXCHANGE, lax, rec)
        && is_good(&RECORD, table::ESN, lax, rec)
}

// Main NPA to Source.
fn has_good_order(lax: bool, rec: &[u8]) -> bool
    ensures { result ≡ true → all_in Printable rec.now ≡ true → fault_from main_npa lax rec.now data_record ≡ fault_from zip lax rec.now data_record }
{
    is_good(&RECORD, table::MAIN_NPA, lax, rec)
        && is_good(&RECORD, table::MAIN_NUMBER, lax, rec)
        && is_good(&RECORD, table::ORDER, lax, rec)
        && is_good(&RECORD, table::DATE, lax, rec)
        && is_good(&RECORD, table::COUNTY, lax, rec)
        && is_good(&RECORD, table::COMPANY_ID, lax, rec)
        && is_good(&RECORD, table::SOURCE, lax, rec)
}

// Zip to Y.
fn has_good_comments(lax: bool, rec: &[u8]) -> bool
    ensures { result ≡ true → all_in Printable rec.now ≡ true → fault_from zip lax rec.now data_record ≡ fault_from z lax rec.now data_record }
{
    is_good(&RECORD, table::ZIP, lax, rec)
        && is_good(&RECORD, table::ZIP_4, lax, rec)
        && is_good(&RECORD, table::GENERAL_USE, lax, rec)
        && is_good(&RECORD, table::CUSTOMER_CODE, lax, rec)
        && is_good(&RECORD, table::COMMENTS, lax, rec)
        && is_good(&RECORD, table::X, lax, rec)
        && is_good(&RECORD, table::Y, lax, rec)
}

// Z to the last byte.
#[tactic(auto, using(crate::proofs::LookLaws::past_end))]
fn has_good_end(lax: bool, rec: &[u8]) -> bool
    ensures { result ≡ true → all_in Printable rec.now ≡ true → fault_from z lax rec.now data_record ≡ 0 }
{
    is_good(&RECORD, table::Z, lax, rec)
        && is_good(&RECORD, table::CELL, lax, rec)
        && is_good(&RECORD, table::SECTOR, lax, rec)
        && is_good(&RECORD, table::TAR, lax, rec)
        && is_good(&RECORD, table::RESERVED, lax, rec)
        && is_good(&RECORD, table::RECORD_STAR, lax, rec)
}

// Whether a record of printable bytes is seen to be good. That it is a whole one is said here once, so that the compiler leaves out
// the tests that a field is there.
#[tactic(auto, unfolding(crate::specs::Look::fault_from))]
pub fn is_good_record(lax: bool, rec: &[u8]) -> bool
    ensures { result ≡ true → all_in Printable rec.now ≡ true → fault_in lax rec.now data_record ≡ 0 }
{
    rec.len() == place::RECORD_SIZE
        && has_good_number(lax, rec)
        && has_good_street(lax, rec)
        && has_good_customer(lax, rec)
        && has_good_order(lax, rec)
        && has_good_comments(lax, rec)
        && has_good_end(lax, rec)
}

// Prefix to Post.
fn has_good_row_street(row: &[u8]) -> bool
    ensures { result ≡ true → all_in Printable row.now ≡ true → fault_from row_prefix false row.now guide_row ≡ fault_from low false row.now guide_row }
{
    is_good(&ROW, table::ROW_PREFIX, false, row)
        && is_good(&ROW, table::ROW_STREET, false, row)
        && is_good(&ROW, table::ROW_SUFFIX, false, row)
        && is_good(&ROW, table::ROW_POST, false, row)
}

// Community and State.
fn has_good_row_place(row: &[u8]) -> bool
    ensures { result ≡ true → all_in Printable row.now ≡ true → fault_from row_community false row.now guide_row ≡ fault_from parity false row.now guide_row }
{
    is_good(&ROW, table::ROW_COMMUNITY, false, row) && is_good(&ROW, table::ROW_STATE, false, row)
}

// ESN to the last byte.
#[tactic(auto, using(crate::proofs::LookLaws::past_end))]
fn has_good_row_end(row: &[u8]) -> bool
    ensures { result ≡ true → all_in Printable row.now ≡ true → fault_from row_esn false row.now guide_row ≡ 0 }
{
    is_good(&ROW, table::ROW_ESN, false, row)
        && is_good(&ROW, table::ROW_FREE, false, row)
        && is_good(&ROW, table::ROW_FUNCTION, false, row)
        && is_good(&ROW, table::ROW_STAR, false, row)
}

// Whether a row of printable bytes is seen to be good.
#[tactic(auto, unfolding(crate::specs::Look::fault_from))]
pub fn is_good_row(row: &[u8]) -> bool
    ensures { result ≡ true → all_in Printable row.now ≡ true → fault_in false row.now guide_row ≡ 0 }
{
    row.len() == place::ROW_SIZE
        && has_good_row_street(row)
        && is_range(row)
        && has_good_row_place(row)
        && has_good_row_end(row)
}
