// The lookup that the dispatch console calls: two byte slices in, one packed number out. C gets it from the crate lookup_c.
#![tactic(auto)]

ghost use Rattle.std.specs.Prelude.{◌≡◌, ◌≤◌, ◌<◌};
ghost use Rattle.rules.specs.Slots.{slots, slot_at, state_of};
ghost use Rattle.rules.specs.Refusing.{refusal_number};
ghost use Rattle.rules.specs.Lookups.{is_number, unseen, seen_in, seen, LooksUp};

use layout::place;
use rules::refusing::Refused;
use rules::{Seen, refusing};
use text::Class;

// Ten digits.
#[tactic(auto, unfolding(rules::specs::Lookups::is_number))]
fn is_number(number: &[u8]) -> bool
    ensures { result ≡ is_number number.now }
{
    number.len() == place::NUMBER_SIZE && text::all_in(number, Class::Digit)
}

// A refusal gives 0 for each.
fn unseen(why: Refused) -> Seen
    ensures { result ≡ unseen (refusal_number why) }
{
    Seen {
        refusal: why.number(),
        state: 0,
        slot: 0,
        looked: 0,
    }
}

// The state of a slot that is there: `register::slot_at`, which tests that it is, makes the walk before it a tenth slower.
#[tactic(auto, using(rules::proofs::PlaceLaws::place_part))]
fn state_at(register: &[u8], i: usize) -> u32
    requires { i < slots register.now }
    ensures { result ≡ state_of (slot_at register.now i) }
{
    let a = i * register::SLOT;
    u32::from(register::state(&register[a..a + register::SLOT]))
}

// The lowest used slot with this number, and how many slots were looked at.
#[tactic(auto, using(rules::proofs::WalkLaws::find_some, rules::proofs::WalkLaws::walked_le), unfolding(rules::specs::Lookups::seen_in, rules::specs::Records::find_number))]
fn seen_in(register: &[u8], number: &[u8]) -> Seen
    requires { slots register.now ≤ 4096 }
    ensures { result ≡ seen_in register.now number.now }
{
    let sought = register::find_number(register, number);
    let (state, slot) = match sought.found {
        Some(i) => (state_at(register, i), i as u32),
        None => (0, 0),
    };
    Seen {
        refusal: refusing::NONE,
        state,
        slot,
        looked: sought.looked as u32,
    }
}

// What is seen of a number: the register's length is tested, then that ten digits are given, and nothing else.
#[tactic(auto, using(rules::proofs::LookupLaws::long_few), unfolding(rules::specs::Lookups::seen))]
pub fn look(register: &[u8], number: &[u8]) -> Seen
    ensures { result ≡ seen register.now number.now }
{
    if !sound::is_register_long(register) {
        return unseen(Refused::Register);
    }
    if !is_number(number) {
        return unseen(Refused::NoNumber);
    }
    seen_in(register, number)
}

const BIT_16: u64 = 65536;

const BIT_32: u64 = 4294967296;

const BIT_36: u64 = 68719476736;

// The same, in one number: slots looked at in bits 0 to 15, the slot in 16 to 31, the state in 32 to 35, the refusal in 36 to 39.
#[tactic(auto, using(rules::proofs::LookupLaws::seen_bounded), unfolding(rules::specs::Lookups::packed))]
pub fn hakkiyolu_lookup(register: &[u8], number: &[u8]) -> u64
    ensures { LooksUp register.now number.now result }
{
    let s = look(register, number);
    let refusal = u64::from(s.refusal);
    let state = u64::from(s.state);
    let slot = u64::from(s.slot);
    let looked = u64::from(s.looked);
    looked + (slot * BIT_16 + (state * BIT_32 + refusal * BIT_36))
}
