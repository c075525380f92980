// Whether register and guide are sound, slot by slot; the register by either reading of its records' dates.
#![tactic(auto)]

ghost use Rattle.std.specs.Prelude.{◌≡◌, ◌<◌};
ghost use Rattle.rules.specs.Walks.{sought};
ghost use Rattle.rules.specs.Slots.{good_length, slot_size, slots, is_entry_code, fits_slot, day_fits, used_sound_by, is_unsound_by, unsound_by, register_sound_by, register_sound};
ghost use Rattle.rules.specs.Slots.{row_slots, present_sound, is_row_unsound, unsound_row_slot, guide_sound};

use calendar::{Day, Reading};
use layout::field;
use rules::{Sought, states};

const MOST_SLOTS: usize = 4096;

// 1 to 4096 whole slots.
#[tactic(auto, unfolding(rules::specs::Slots::good_length))]
fn is_good_length(store: &[u8], width: usize) -> bool
    requires { 0 < width }
    ensures { result ≡ good_length width store.now }
{
    let n = store.len() / width;
    store.len() % width == 0 && (1..=MOST_SLOTS).contains(&n)
}

// The length of a register.
pub fn is_register_long(register: &[u8]) -> bool
    ensures { result ≡ good_length slot_size register.now }
{
    is_good_length(register, register::SLOT)
}

fn is_entry_code(b: u8) -> bool
    ensures { result ≡ is_entry_code b }
{
    matches!(b, b'I' | b'C' | b'M')
}

// A record that may stand in a slot.
#[tactic(auto, unfolding(rules::specs::Slots::fits_slot))]
fn does_fit(rec: &[u8]) -> bool
    ensures { result ≡ fits_slot rec.now }
{
    faults::record_fault(rec) == 0 && is_entry_code(field::function(rec)) && field::has_esn(rec)
}

#[tactic(auto, unfolding(rules::specs::Slots::day_fits))]
fn does_day_fit(state: u8, day: Day, date: Day) -> bool
    ensures { result ≡ day_fits state day date }
{
    !day.is_before(date) && (state != states::HELD || !date.is_before(day)) && day.is_on_calendar()
}

#[tactic(auto, unfolding(rules::specs::Slots::is_zero))]
fn is_used_sound(reading: Reading, slot: &[u8]) -> bool
    ensures { result ≡ used_sound_by reading slot.now }
{
    let state = register::state(slot);
    let rec = register::rec(slot);
    register::is_used(state)
        && text::all_equal(text::part_of(slot, 5, 3), 0)
        && does_fit(rec)
        && field::date_by(reading, rec).is_some_and(|date| does_day_fit(
            state,
            register::day(slot),
            date,
        ))
}

#[tactic(auto, unfolding(rules::specs::Slots::is_zero))]
fn is_unsound(reading: Reading, slot: &[u8]) -> bool
    ensures { result ≡ is_unsound_by reading slot.now }
{
    if register::state(slot) == states::FREE {
        return !text::all_equal(slot, 0);
    }
    !is_used_sound(reading, slot)
}

// The lowest slot of the register that is not sound.
fn find_unsound(reading: Reading, register: &[u8]) -> Sought
    ensures { result ≡ sought (unsound_by reading register.now) (slots register.now) }
{
    walks::seek::<{ register::SLOT }, _>(register, |slot| is_unsound(reading, slot))
}

// Whether the register is sound by a reading of dates.
#[tactic(auto, unfolding(rules::specs::Slots::register_sound_by))]
pub fn is_sound_by(reading: Reading, register: &[u8]) -> bool
    ensures { result ≡ register_sound_by reading register.now }
{
    is_register_long(register) && find_unsound(reading, register).found.is_none()
}

// Whether it is sound as dates are read now.
pub fn is_register_sound(register: &[u8]) -> bool
    ensures { result ≡ register_sound register.now }
{
    is_sound_by(Reading::Present, register)
}

#[tactic(auto, unfolding(rules::specs::Slots::present_sound, rules::specs::Slots::is_zero))]
fn is_present_sound(slot: &[u8]) -> bool
    ensures { result ≡ present_sound slot.now }
{
    let row = guide::row(slot);
    guide::is_present(slot)
        && text::all_equal(text::part_of(slot, 1, 7), 0)
        && faults::row_fault(row) == 0
        && field::row_function(row) == b'I'
}

#[tactic(auto, unfolding(rules::specs::Slots::row_slot_sound, rules::specs::Slots::is_zero))]
fn is_row_unsound(slot: &[u8]) -> bool
    ensures { result ≡ is_row_unsound slot.now }
{
    if guide::is_vacant(slot) {
        return !text::all_equal(slot, 0);
    }
    !is_present_sound(slot)
}

// The lowest slot of the guide that is not sound.
fn find_unsound_row(guide: &[u8]) -> Sought
    ensures { result ≡ sought (unsound_row_slot guide.now) (row_slots guide.now) }
{
    walks::seek::<{ guide::SLOT }, _>(guide, is_row_unsound)
}

#[tactic(auto, unfolding(rules::specs::Slots::guide_sound))]
pub fn is_guide_sound(guide: &[u8]) -> bool
    ensures { result ≡ guide_sound guide.now }
{
    is_good_length(guide, guide::SLOT) && find_unsound_row(guide).found.is_none()
}
