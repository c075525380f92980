// The guide's slots of 208 bytes: what is read from one, the walks over them, and all that writes one: no other crate does.
#![tactic(auto)]

ghost use Rattle.std.specs.Prelude.{◌≡◌, false, ◌&&◌, ◌≤◌, length, replicate};
ghost use Rattle.rules.specs.Walks.{sought};
ghost use Rattle.rules.specs.Slots.{row_slot_size, row_slots, row_slot_at, is_present, is_vacant, row_of, row_written};
ghost use Rattle.rules.specs.Covers.{over};
ghost use Rattle.rules.specs.Records.{is_over};
ghost use Rattle.rules.specs.Rows.{clashes_by, clash_at, vacant_at, is_same_by, same_at};
ghost use Rattle.guide.specs.Streets.{is_on, Elsewhere, AnswersOn};
ghost use Rattle.std.specs.Fn.{FnReturnsAt};
ghost use Rattle.walks.specs.Seeking.{IsSought};

use layout::{field, place};
use rules::Sought;

// The byte that says whether a row is there, and seven bytes of zero, stand before the row.
const ROW_AT: usize = 8;

// How many bytes a slot has.
pub const SLOT: usize = ROW_AT + place::ROW_SIZE;

#[tactic(auto, unfolding(rules::specs::Slots::is_present))]
pub fn is_present(slot: &[u8]) -> bool
    ensures { result ≡ is_present slot.now }
{
    text::byte_of(slot, 0) == 1
}

#[tactic(auto, unfolding(rules::specs::Slots::is_vacant))]
pub fn is_vacant(slot: &[u8]) -> bool
    ensures { result ≡ is_vacant slot.now }
{
    text::byte_of(slot, 0) == 0
}

// The row in a slot.
#[tactic(auto, unfolding(rules::specs::Slots::row_of))]
pub fn row(slot: &[u8]) -> &[u8]
    ensures { result.now ≡ row_of slot.now }
{
    text::part_of(slot, ROW_AT, place::ROW_SIZE)
}

// The row in slot k of the guide, as far as it is there.
pub fn row_at(guide: &[u8], k: usize) -> &[u8]
    ensures { result.now ≡ row_of (row_slot_at guide.now k) }
{
    row(walks::place_at::<SLOT>(guide, k))
}

// Whether the row in a slot may be of a street: the first sixteen bytes, two words, nearly always tell two streets apart.
#[tactic(auto, using(text::proofs::Laws::eight_not))]
fn may_be_on(slot: &[u8], street: &[u8]) -> bool
    ensures { result ≡ false → is_on street.now slot.now ≡ false }
{
    let own = field::row_street(row(slot));
    let is_short = own.len() < 16 || street.len() < 16;
    is_short || text::are_eight_same(own, street, 0) && text::are_eight_same(own, street, 8)
}

// The first row from i on that may be of a street, or how many slots there are. A walk that asks for one street looks only at
// such rows: this loop, which runs over all the others, is kept short.
fn next_on(guide: &[u8], street: &[u8], i: usize) -> usize
    requires { i ≤ row_slots guide.now }
    ensures { (i ≤ result) × (result ≤ row_slots guide.now) × Elsewhere street.now guide.now i result }
{
    let n = guide.len() / SLOT;
    for j in i..n {
        let start = j * SLOT;
        let end = start + SLOT;
        if may_be_on(&guide[start..end], street) {
            return j;
        }
    }
    n
}

// The lowest row that passes a test which rows of other streets fail: where one is told apart at a glance, it is not asked. The loop goes
// on where next_on says, not one by one.
fn seek_on<F: Fn(&[u8]) -> bool>(guide: &[u8], street: &[u8], passes: F) -> Sought
    requires { F.IsAlwaysCallable passes }
    ensures { IsSought (AnswersOn street.now (FnReturnsAt F.Fn passes)) row_slot_size guide.now result }
{
    let n = guide.len() / SLOT;
    let mut i = next_on(guide, street, 0);
    while i < n {
        let start = i * SLOT;
        let end = start + SLOT;
        if passes(&guide[start..end]) {
            return Sought {
                found: Some(i),
                looked: i + 1,
            };
        }
        i = next_on(guide, street, i + 1);
    }
    Sought {
        found: None,
        looked: n,
    }
}

// A present row that stands over house number n of a street in a place.
fn is_over(slot: &[u8], street: &[u8], place: &[u8], n: u32) -> bool
    ensures { result ≡ is_present slot.now && over (row_of slot.now) street.now place.now n }
{
    is_present(slot) && cover::is_over(row(slot), street, place, n)
}

// The lowest row over a record's address, which is read once.
pub fn find_row(guide: &[u8], rec: &[u8]) -> Sought
    ensures { result ≡ sought (is_over rec.now guide.now) (row_slots guide.now) }
{
    let Some(house) = field::house(rec) else {
        return Sought {
            found: None,
            looked: guide.len() / SLOT,
        };
    };
    let street = field::street(rec);
    let place = field::place(rec);
    seek_on(guide, street, |slot| is_over(slot, street, place, house))
}

// A present row that clashes with another.
fn does_clash(slot: &[u8], g: &[u8]) -> bool
    ensures { result ≡ clashes_by g.now slot.now }
{
    is_present(slot) && cover::do_clash(row(slot), g)
}

// The lowest row that clashes with another.
pub fn find_clash(guide: &[u8], g: &[u8]) -> Sought
    ensures { result ≡ sought (clash_at g.now guide.now) (row_slots guide.now) }
{
    seek_on(guide, field::row_street(g), |slot| does_clash(slot, g))
}

// The lowest free guide slot.
pub fn find_vacant(guide: &[u8]) -> Sought
    ensures { result ≡ sought (vacant_at guide.now) (row_slots guide.now) }
{
    walks::seek::<SLOT, _>(guide, is_vacant)
}

// A present row that is the same as another.
fn is_same(slot: &[u8], g: &[u8]) -> bool
    ensures { result ≡ is_same_by g.now slot.now }
{
    is_present(slot) && cover::is_same_row(row(slot), g)
}

// The lowest row that is the same as another.
pub fn find_same(guide: &[u8], g: &[u8]) -> Sought
    ensures { result ≡ sought (same_at g.now guide.now) (row_slots guide.now) }
{
    seek_on(guide, field::row_street(g), |slot| is_same(slot, g))
}

// A row stored in a slot that has room for it.
#[tactic(auto, unfolding(rules::specs::Slots::row_written))]
pub fn write_row(slot: &mut [u8], g: &[u8])
    ensures { slot.new ≡ row_written g.now slot.old }
{
    text::put(&mut slot[..], 0, b"\x01\x00\x00\x00\x00\x00\x00\x00");
    text::put(&mut slot[..], ROW_AT, g);
}

// A slot becomes all zero.
pub fn clear_row(slot: &mut [u8])
    ensures { slot.new ≡ replicate (length slot.old) 0 }
{
    text::fill(&mut slot[..], 0);
}
