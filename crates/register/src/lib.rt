// The register's slots of 520 bytes: what is read from one, the walks over them, and all that writes one: no other crate does.
#![tactic(auto)]

ghost use Rattle.std.specs.Prelude.{◌≡◌};
ghost use Rattle.rules.specs.Walks.{sought};
ghost use Rattle.rules.specs.Slots.{slots, slot_at, state_of, is_used, is_live, slot_day, record_of, restated, written};
ghost use Rattle.rules.specs.Records.{is_of, has_number, is_free_slot, free_at, is_reusable, reusable_at, shown};
ghost use Rattle.rules.specs.Rows.{is_entry_under, entry_under};
ghost use Rattle.text.specs.Text.{same_bytes};

use calendar::Day;
use layout::{field, place};
use rules::{Sought, states};

// State, day and three bytes of zero stand before the record.
const RECORD_AT: usize = 8;

// How many bytes a slot has.
pub const SLOT: usize = RECORD_AT + place::RECORD_SIZE;

// How many days a number rests before its slot may be used anew.
const REST: u32 = 90;

// Slot i of the register, as far as it is there.
pub fn slot_at(register: &[u8], i: usize) -> &[u8]
    ensures { result.now ≡ slot_at register.now i }
{
    walks::place_at::<SLOT>(register, i)
}

#[tactic(auto, unfolding(rules::specs::Slots::state_of))]
pub fn state(slot: &[u8]) -> u8
    ensures { result ≡ state_of slot.now }
{
    text::byte_of(slot, 0)
}

// Held, open or resting.
pub fn is_used(state: u8) -> bool
    ensures { result ≡ is_used state }
{
    (states::HELD <= state) & (state <= states::RESTING)
}

// Held or open.
pub fn is_live(state: u8) -> bool
    ensures { result ≡ is_live state }
{
    (state == states::HELD) | (state == states::OPEN)
}

#[tactic(auto, unfolding(rules::specs::Slots::slot_day))]
pub fn day(slot: &[u8]) -> Day
    ensures { result ≡ slot_day slot.now }
{
    Day::stored(
        text::byte_of(slot, 1),
        text::byte_of(slot, 2),
        text::byte_of(slot, 3),
        text::byte_of(slot, 4),
    )
}

// The record in a slot.
#[tactic(auto, unfolding(rules::specs::Slots::record_of))]
pub fn rec(slot: &[u8]) -> &[u8]
    ensures { result.now ≡ record_of slot.now }
{
    text::part_of(slot, RECORD_AT, place::RECORD_SIZE)
}

// Where the last eight digits of a number begin.
const LAST_EIGHT: usize = place::NUMBER_SIZE - 8;

// Whether two numbers are the same. Numbers of one area differ in their last digits: of ten, the last eight, a word, are looked at first.
#[tactic(auto, using(text::proofs::Laws::eight_not))]
fn is_same_number(a: &[u8], b: &[u8]) -> bool
    ensures { result ≡ same_bytes a.now b.now }
{
    let is_short = a.len() < place::NUMBER_SIZE || b.len() < place::NUMBER_SIZE;
    (is_short || text::are_eight_same(a, b, LAST_EIGHT)) && text::same(a, b)
}

// A used slot with this number. Where the number differs, as it nearly always does, the state byte is not looked at.
fn is_of(slot: &[u8], number: &[u8]) -> bool
    ensures { result ≡ is_of number.now slot.now }
{
    is_same_number(field::number(rec(slot)), number) && is_used(state(slot))
}

// The lowest used slot with this number.
pub fn find_number(register: &[u8], number: &[u8]) -> Sought
    ensures { result ≡ sought (has_number number.now register.now) (slots register.now) }
{
    walks::seek::<SLOT, _>(register, |slot| is_of(slot, number))
}

fn is_free_slot(slot: &[u8]) -> bool
    ensures { result ≡ is_free_slot slot.now }
{
    state(slot) == states::FREE
}

// The lowest free slot.
pub fn find_free(register: &[u8]) -> Sought
    ensures { result ≡ sought (free_at register.now) (slots register.now) }
{
    walks::seek::<SLOT, _>(register, is_free_slot)
}

// A slot that rests for 90 days or more.
#[tactic(auto, unfolding(rules::specs::Records::is_reusable))]
fn may_reuse(slot: &[u8], today: Day) -> bool
    ensures { result ≡ is_reusable today slot.now }
{
    state(slot) == states::RESTING && day(slot).is_past(REST, today)
}

// The lowest resting slot that may be used anew.
pub fn find_reusable(register: &[u8], today: Day) -> Sought
    ensures { result ≡ sought (reusable_at today register.now) (slots register.now) }
{
    walks::seek::<SLOT, _>(register, |slot| may_reuse(slot, today))
}

// A held or open entry under a row.
fn is_entry_under(slot: &[u8], row: &[u8]) -> bool
    ensures { result ≡ is_entry_under row.now slot.now }
{
    is_live(state(slot)) && cover::does_cover(row, rec(slot))
}

// The lowest held or open entry under a row.
pub fn find_entry(register: &[u8], row: &[u8]) -> Sought
    ensures { result ≡ sought (entry_under row.now register.now) (slots register.now) }
{
    walks::seek::<SLOT, _>(register, |slot| is_entry_under(slot, row))
}

// Another state and day in a slot that has room for its head; the record stays.
#[tactic(auto, unfolding(rules::specs::Slots::restated))]
pub fn restate(slot: &mut [u8], state: u8, day: Day)
    ensures { slot.new ≡ restated state day slot.old }
{
    let d = day.bytes();
    let head = [state, d[0], d[1], d[2], d[3], 0, 0, 0];
    text::put(&mut slot[..], 0, &head);
}

// State, day and record of a slot, each where it has room for them.
#[tactic(auto, unfolding(rules::specs::Slots::written))]
fn write_slot(slot: &mut [u8], state: u8, day: Day, rec: &[u8])
    ensures { slot.new ≡ written state day rec.now slot.old }
{
    restate(&mut slot[..], state, day);
    text::put(&mut slot[..], RECORD_AT, rec);
}

// The same with what an entry shows, the record with a blank ESN filled in from its row: it is filled in where the record was put.
pub fn write_shown(slot: &mut [u8], state: u8, day: Day, rec: &[u8], row: &[u8])
    ensures { slot.new ≡ written state day (shown rec.now row.now) slot.old }
{
    write_slot(&mut slot[..], state, day, rec);
    if field::has_esn(rec) {
        return;
    }
    if text::is_there(&slot[..], RECORD_AT, rec.len()) {
        let e = RECORD_AT + rec.len();
        field::fill_esn(&mut slot[RECORD_AT..e], field::row_esn(row));
    }
}
