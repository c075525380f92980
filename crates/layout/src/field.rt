// What is read from a record or a row, and what is written into one. A line that is too short gives what of the field
// there is, and 0 for a field of one byte. Each is a line under the field's own name, as it is defined, and not one function of a place.
ghost use Rattle.std.specs.Prelude.{◌≡◌};
ghost use Rattle.layout.specs.Fields.{function_of, number_of, house_in, house_of, street_of, place_of, esn_of, has_esn, same_esn, date_of, date_by, company_of};
ghost use Rattle.layout.specs.Fields.{row_street_of, row_place_of, end_in, low_of, high_of, parity_of, allows, row_esn_of, row_function_of};
ghost use Rattle.layout.specs.Fields.{with_esn, for_load};

use crate::place;
use calendar::{Day, Reading};

#[tactic(auto, unfolding(crate::specs::Fields::function_of))]
pub fn function(rec: &[u8]) -> u8
    ensures { result ≡ function_of rec.now }
{
    text::byte_of(rec, place::FUNCTION_AT)
}

// NPA and Calling Number, ten bytes.
#[tactic(auto, unfolding(crate::specs::Fields::number_of))]
pub fn number(rec: &[u8]) -> &[u8]
    ensures { result.now ≡ number_of rec.now }
{
    text::part_of(rec, place::NPA_AT, place::NUMBER_SIZE)
}

// House Number, Low and High have at most so many digits.
const MOST_DIGITS: usize = 8;

// A House Number: blank, which counts as 0, or 1 to 8 digits.
pub fn house_in(f: &[u8]) -> Option<u32>
    ensures { result ≡ house_in f.now }
{
    text::number_in(f, 0, MOST_DIGITS)
}

#[tactic(auto, unfolding(crate::specs::Fields::house_of))]
pub fn house(rec: &[u8]) -> Option<u32>
    ensures { result ≡ house_of rec.now }
{
    house_in(text::part_of(rec, place::HOUSE_AT, place::HOUSE_SIZE))
}

// Prefix, Street Name, Suffix and Post.
#[tactic(auto, unfolding(crate::specs::Fields::street_of))]
pub fn street(rec: &[u8]) -> &[u8]
    ensures { result.now ≡ street_of rec.now }
{
    text::part_of(rec, place::PREFIX_AT, place::STREET_SIZE)
}

// Community and State.
#[tactic(auto, unfolding(crate::specs::Fields::place_of))]
pub fn place(rec: &[u8]) -> &[u8]
    ensures { result.now ≡ place_of rec.now }
{
    text::part_of(rec, place::COMMUNITY_AT, place::PLACE_SIZE)
}

#[tactic(auto, unfolding(crate::specs::Fields::esn_of))]
pub fn esn(rec: &[u8]) -> &[u8]
    ensures { result.now ≡ esn_of rec.now }
{
    text::part_of(rec, place::ESN_AT, place::ESN_SIZE)
}

// Whether the ESN is not blank.
#[tactic(auto, unfolding(crate::specs::Fields::has_esn, crate::specs::Fields::esn_of))]
pub fn has_esn(rec: &[u8]) -> bool
    ensures { result ≡ has_esn rec.now }
{
    !text::is_blank(esn(rec))
}

// Whether two ESNs are the same: byte for byte, so that `83` and `083` differ.
pub fn same_esn(a: &[u8], b: &[u8]) -> bool
    ensures { result ≡ same_esn a.now b.now }
{
    text::same(a, b)
}

#[tactic(auto, unfolding(crate::specs::Fields::date_of))]
pub fn date(rec: &[u8]) -> Option<Day>
    ensures { result ≡ date_of rec.now }
{
    calendar::day_in(text::part_of(rec, place::DATE_AT, place::DATE_SIZE))
}

// The same, by a reading.
#[tactic(auto, unfolding(crate::specs::Fields::date_of))]
pub fn date_by(reading: Reading, rec: &[u8]) -> Option<Day>
    ensures { result ≡ date_by reading rec.now }
{
    calendar::day_by(
        reading,
        text::part_of(rec, place::DATE_AT, place::DATE_SIZE),
    )
}

#[tactic(auto, unfolding(crate::specs::Fields::company_of))]
pub fn company(rec: &[u8]) -> &[u8]
    ensures { result.now ≡ company_of rec.now }
{
    text::part_of(rec, place::COMPANY_AT, place::COMPANY_SIZE)
}

#[tactic(auto, unfolding(crate::specs::Fields::row_street_of))]
pub fn row_street(row: &[u8]) -> &[u8]
    ensures { result.now ≡ row_street_of row.now }
{
    text::part_of(row, place::ROW_PREFIX_AT, place::ROW_SPAN_SIZE)
}

#[tactic(auto, unfolding(crate::specs::Fields::row_place_of))]
pub fn row_place(row: &[u8]) -> &[u8]
    ensures { result.now ≡ row_place_of row.now }
{
    text::part_of(row, place::ROW_COMMUNITY_AT, place::ROW_PLACE_SIZE)
}

// An end of a row: 1 to 8 digits.
pub fn end_in(f: &[u8]) -> Option<u32>
    ensures { result ≡ end_in f.now }
{
    text::number_in(f, 1, MOST_DIGITS)
}

#[tactic(auto, unfolding(crate::specs::Fields::low_of))]
pub fn low(row: &[u8]) -> Option<u32>
    ensures { result ≡ low_of row.now }
{
    end_in(text::part_of(row, place::LOW_AT, place::LOW_SIZE))
}

#[tactic(auto, unfolding(crate::specs::Fields::high_of))]
pub fn high(row: &[u8]) -> Option<u32>
    ensures { result ≡ high_of row.now }
{
    end_in(text::part_of(row, place::HIGH_AT, place::HIGH_SIZE))
}

#[tactic(auto, unfolding(crate::specs::Fields::parity_of))]
pub fn parity(row: &[u8]) -> u8
    ensures { result ≡ parity_of row.now }
{
    text::byte_of(row, place::PARITY_AT)
}

// Whether a parity allows a house number.
#[tactic(auto, unfolding(crate::specs::Fields::allows))]
pub fn allowed(parity: u8, n: u32) -> bool
    ensures { result ≡ allows parity n }
{
    match parity {
        b'O' => n % 2 == 1,
        b'E' => n % 2 == 0,
        b'B' => true,
        _ => false,
    }
}

#[tactic(auto, unfolding(crate::specs::Fields::row_esn_of))]
pub fn row_esn(row: &[u8]) -> &[u8]
    ensures { result.now ≡ row_esn_of row.now }
{
    text::part_of(row, place::ROW_ESN_AT, place::ROW_ESN_SIZE)
}

#[tactic(auto, unfolding(crate::specs::Fields::row_function_of))]
pub fn row_function(row: &[u8]) -> u8
    ensures { result ≡ row_function_of row.now }
{
    text::byte_of(row, place::ROW_FUNCTION_AT)
}

// Another ESN in a record; no byte outside that field is written.
#[tactic(auto, unfolding(crate::specs::Fields::with_esn))]
pub fn fill_esn(rec: &mut [u8], esn: &[u8])
    ensures { rec.new ≡ with_esn esn.now rec.old }
{
    text::put(
        &mut rec[..],
        place::ESN_AT,
        text::part_of(esn, 0, place::ESN_SIZE),
    );
}

// Function `I` and Source `C`, as a record stands in a load file.
#[tactic(auto, unfolding(crate::specs::Fields::for_load))]
pub fn mark_for_load(rec: &mut [u8])
    ensures { rec.new ≡ for_load rec.old }
{
    text::put(&mut rec[..], place::FUNCTION_AT, b"I");
    text::put(&mut rec[..], place::SOURCE_AT, b"C");
}
