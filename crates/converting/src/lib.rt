// A register that was written before, when each year was 20YY and 010100 was day 0, becomes one of today: each used slot's day is counted
// anew.
#![tactic(auto)]

ghost use Rattle.std.specs.Prelude.{◌≡◌};
ghost use Rattle.rules.specs.Walks.{sought};
ghost use Rattle.rules.specs.Slots.{slots};
ghost use Rattle.rules.specs.Refusing.{refusal_number, refusal_slot};
ghost use Rattle.rules.specs.Converts.{is_late, late_at, converted_slot, converted_to, Converts};

use calendar::Reading;
use rules::refusing::Refused;
use rules::{Converted, Sought, refusing};

// A used slot whose day has no reading now.
fn is_late(slot: &[u8]) -> bool
    ensures { result ≡ is_late slot.now }
{
    register::is_used(register::state(slot)) && register::day(slot).anew().is_none()
}

// The lowest slot whose day has no reading now.
fn find_late(register: &[u8]) -> Sought
    ensures { result ≡ sought (late_at register.now) (slots register.now) }
{
    walks::seek::<{ register::SLOT }, _>(register, is_late)
}

// The day of a used slot, counted anew where it has a reading.
#[tactic(auto, unfolding(rules::specs::Converts::converted_slot))]
fn convert_slot(slot: &mut [u8])
    ensures { slot.new ≡ converted_slot slot.old }
{
    let state = register::state(slot);
    if !register::is_used(state) {
        return;
    }
    if let Some(day) = register::day(slot).anew() {
        register::restate(slot, state, day);
    }
}

// Slot by slot, each lent on as a part of the register; by number, as what is written through a chunk is not known afterwards.
fn convert_slots(register: &mut [u8])
    ensures { register.new ≡ converted_to register.old (slots register.old) }
{
    let n = register.len() / register::SLOT;
    for i in 0..n {
        let a = i * register::SLOT;
        convert_slot(&mut register[a..a + register::SLOT]);
    }
}

// What a refused conversion returns.
fn refused(why: Refused) -> Converted
    ensures { result ≡ record { refusal = refusal_number why; slot = refusal_slot why } }
{
    Converted {
        refusal: why.number(),
        slot: why.slot(),
    }
}

// Converts a register that was written before. Nothing is changed before the whole register was seen to be sound by the former reading
// and to have no day without a reading now.
#[tactic(auto, using(rules::proofs::KeepSound::slots_sound_by, rules::proofs::LookupLaws::long_few, rules::proofs::WalkLaws::find_some), unfolding(rules::specs::Converts::conversion))]
pub fn convert(register: &mut [u8]) -> Converted
    ensures { Converts register.old result register.new }
{
    if !sound::is_sound_by(Reading::Former, register) {
        return refused(Refused::Register);
    }
    if let Some(i) = find_late(register).found {
        return refused(Refused::NoReading { slot: i as u32 });
    }
    convert_slots(register);
    Converted {
        refusal: refusing::NONE,
        slot: 0,
    }
}
