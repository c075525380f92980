// Whether a row covers an address, and whether two rows clash or are the same.
#![tactic(auto)]

ghost use Rattle.std.specs.Prelude.{◌≡◌};
ghost use Rattle.layout.specs.Fields.{parity_of};
ghost use Rattle.rules.specs.Covers.{hits, over, covers, same_street, both_allow, meet_from, meets, clash, equal_numbers, same_row};

use layout::field;

// Whether a house number lies in the row's range and is of its parity. The parity is one byte, and tells the rows of the
// other side of a street before an end is read; High is read only where Low is no more than the number.
#[tactic(auto, unfolding(rules::specs::Covers::hits))]
pub fn is_hit(row: &[u8], n: u32) -> bool
    ensures { result ≡ hits row.now n }
{
    field::allowed(field::parity(row), n)
        && field::low(row).is_some_and(|low| low <= n)
        && field::high(row).is_some_and(|high| n <= high)
}

// Whether a row stands over house number n of a street in a place. Its range is asked first: a walk passes most rows of other
// streets at a glance, and of one street's rows few have the number.
#[tactic(auto, unfolding(rules::specs::Covers::over))]
pub fn is_over(row: &[u8], street: &[u8], place: &[u8], n: u32) -> bool
    ensures { result ≡ over row.now street.now place.now n }
{
    is_hit(row, n)
        && text::same(field::row_street(row), street)
        && text::same(field::row_place(row), place)
}

// Whether a row covers the address of a record.
#[tactic(auto, unfolding(rules::specs::Covers::covers))]
pub fn does_cover(row: &[u8], rec: &[u8]) -> bool
    ensures { result ≡ covers row.now rec.now }
{
    text::same(field::row_street(row), field::street(rec))
        && text::same(field::row_place(row), field::place(rec))
        && field::house(rec).is_some_and(|n| is_hit(row, n))
}

// Whether two rows have the same street fields.
#[tactic(auto, unfolding(rules::specs::Covers::same_street))]
pub fn is_same_street(g: &[u8], h: &[u8]) -> bool
    ensures { result ≡ same_street g.now h.now }
{
    text::same(field::row_street(g), field::row_street(h))
        && text::same(field::row_place(g), field::row_place(h))
}

fn both_allow(p: u8, q: u8, n: u32) -> bool
    ensures { result ≡ both_allow p q n }
{
    field::allowed(p, n) & field::allowed(q, n)
}

// Whether n or the next number is at most high and of both parities.
#[tactic(auto, unfolding(rules::specs::Covers::meet_from))]
fn meet_from(p: u8, q: u8, high: u32, n: u32) -> bool
    ensures { result ≡ meet_from p q high n }
{
    n <= high && (both_allow(p, q, n) || n < high && both_allow(p, q, n + 1))
}

// Whether some house number is in both ranges and of both parities. Rows mostly come in the order of their numbers: that g
// ends before h begins is asked first, and then two ends of the four are not read.
#[tactic(auto, using(crate::proofs::RangeLaws::meets_not, crate::proofs::RangeLaws::no_number), unfolding(rules::specs::Covers::meets))]
fn do_meet(g: &[u8], h: &[u8]) -> bool
    ensures { result ≡ meets g.now h.now }
{
    let Some(b) = field::high(g) else {
        return false;
    };
    let Some(c) = field::low(h) else {
        return false;
    };
    if b < c {
        return false;
    }
    let Some(a) = field::low(g) else {
        return false;
    };
    let Some(d) = field::high(h) else {
        return false;
    };
    meet_from(field::parity(g), field::parity(h), b.min(d), a.max(c))
}

// Whether some number is of both parities: if one is, 0 or 1 is. Two sides of a street are told apart before an end is read.
fn may_meet(g: &[u8], h: &[u8]) -> bool
    ensures { result ≡ meet_from (parity_of g.now) (parity_of h.now) 1 0 }
{
    meet_from(field::parity(g), field::parity(h), 1, 0)
}

// Whether some house number is covered by both rows. As in is_over, streets are compared last.
#[tactic(auto, using(crate::proofs::RangeLaws::clash_parity), unfolding(rules::specs::Covers::clash))]
pub fn do_clash(g: &[u8], h: &[u8]) -> bool
    ensures { result ≡ clash g.now h.now }
{
    may_meet(g, h) && do_meet(g, h) && is_same_street(g, h)
}

fn are_equal(a: Option<u32>, b: Option<u32>) -> bool
    ensures { result ≡ equal_numbers a b }
{
    a.is_some() && a == b
}

// Whether two rows have the same street fields, ends, parity and ESN.
#[tactic(auto, unfolding(rules::specs::Covers::same_row))]
pub fn is_same_row(g: &[u8], h: &[u8]) -> bool
    ensures { result ≡ same_row g.now h.now }
{
    is_same_street(g, h)
        && are_equal(field::low(g), field::low(h))
        && are_equal(field::high(g), field::high(h))
        && field::parity(g) == field::parity(h)
        && field::same_esn(field::row_esn(g), field::row_esn(h))
}
