// One data record: the answers 11 to 20 and 0, first hit decides, and what 0 does. The number's own slot is sought first; a row only
// for a record that is to be stored and that 11 to 17 let pass, and a spare slot only where 18 and 19 do too and the number has none.
#![tactic(auto)]

ghost use Rattle.std.specs.Prelude.{◌≡◌, ◌&&◌, not, ◌<◌, length, false, IfOk};
ghost use Rattle.layout.specs.Fields.{number_of, has_esn, esn_of, same_esn, row_esn_of};
ghost use Rattle.rules.specs.Answering.{as_answer};
ghost use Rattle.rules.specs.declared.Code.TheVariants.{Insert};
ghost use Rattle.rules.specs.Walks.{first};
ghost use Rattle.rules.specs.Slots.{slots, slot_at, with_slot, record_of, slot_of};
ghost use Rattle.rules.specs.Records.{is_insert, find_number, find_row, find_spare, answer_of, shown, applied};
ghost use Rattle.data_step.specs.Deciding.{resting_table, foreign, entry_table, under, late_answer, Does};

use calendar::Day;
use layout::field;
use layout::frame::Header;
use rules::answering::{self, Undone};
use rules::{Code, states};

// What is done with a record that is answered 0: it is stored in a slot under a row, or the record there gets another state and day.
#[derive(Clone, Copy)]
enum Act {
    Store { slot: usize, row: usize },
    Restate { slot: usize },
}

// 12 and 17 of an I: its number's own slot has to rest, and since a day before.
#[tactic(auto, unfolding(rules::specs::Walks::first))]
fn check_resting(slot: &[u8], d: Day) -> Result<(), Undone>
    ensures { as_answer result ≡ first (resting_table slot.now d) }
{
    if register::is_live(register::state(slot)) {
        return Err(Undone::AlreadyThere);
    }
    if !register::day(slot).is_before(d) {
        return Err(Undone::TooEarly);
    }
    Ok(())
}

// C, D or U of a company that does not hold the number.
fn is_foreign(slot: &[u8], rec: &[u8], c: Code) -> bool
    ensures { result ≡ foreign slot.now rec.now c }
{
    if codes::is_own(c) & (register::state(slot) == states::HELD) {
        return !text::same(field::company(register::rec(slot)), field::company(rec));
    }
    false
}

// 13 to 17 of C, D, U and M, on their number's own slot.
#[tactic(auto, unfolding(rules::specs::Walks::first))]
fn check_entry(slot: &[u8], rec: &[u8], c: Code, d: Day) -> Result<(), Undone>
    ensures { as_answer result ≡ first (entry_table slot.now rec.now c d) }
{
    let state = register::state(slot);
    if !register::is_live(state) {
        return Err(Undone::NotThere);
    }
    if codes::is_migrate(c) & (state == states::HELD) {
        return Err(Undone::StillHeld);
    }
    if codes::is_own(c) & (state == states::OPEN) {
        return Err(Undone::Open);
    }
    if is_foreign(slot, rec, c) {
        return Err(Undone::OtherCompany);
    }
    if d.is_before(register::day(slot)) {
        return Err(Undone::TooEarly);
    }
    Ok(())
}

fn is_other_esn(rec: &[u8], row: &[u8]) -> bool
    ensures { result ≡ has_esn rec.now && not (same_esn (esn_of rec.now) (row_esn_of row.now)) }
{
    field::has_esn(rec) && !field::same_esn(field::esn(rec), field::row_esn(row))
}

// 18 and 19, of a record that is to be stored: the row that covers it.
#[tactic(auto, unfolding(rules::specs::Walks::first, rules::specs::Records::find_row))]
fn row_over(guide: &[u8], rec: &[u8]) -> Result<usize, Undone>
    ensures answer { as_answer result ≡ first (under guide.now rec.now (find_row rec.now guide.now)) }
    ensures row { IfOk result (λ k. find_row rec.now guide.now ≡ Some k) }
{
    let row = guide::find_row(guide, rec).found.ok_or(Undone::NoRow)?;
    if is_other_esn(rec, guide::row_at(guide, row)) {
        return Err(Undone::OtherEsn);
    }
    Ok(row)
}

// The lowest free slot, else the lowest resting one that may be used anew.
#[tactic(auto, unfolding(rules::specs::Records::find_spare, rules::specs::Records::find_free, rules::specs::Records::find_reusable))]
fn find_spare(register: &[u8], today: Day) -> Option<usize>
    ensures { result ≡ find_spare today register.now }
{
    register::find_free(register)
        .found
        .or_else(|| register::find_reusable(register, today).found)
}

// 12 to 20 of an I: it goes to its number's own slot, or to a spare one.
#[tactic(auto, unfolding(rules::specs::Walks::first))]
fn decide_insert(
    register: &[u8],
    guide: &[u8],
    header: Header,
    rec: &[u8],
    d: Day,
    own: Option<usize>,
) -> Result<Act, Undone>
    ensures answer { as_answer result ≡ late_answer register.now guide.now header rec.now Insert d own }
    ensures act { IfOk result (Does register.now guide.now header rec.now Insert own) }
{
    if let Some(i) = own {
        check_resting(register::slot_at(register, i), d)?;
    }
    let row = row_over(guide, rec)?;
    let slot = own
        .or_else(|| find_spare(register, header.day))
        .ok_or(Undone::NoSlot)?;
    Ok(Act::Store { slot, row })
}

// 13 to 19 of C, D, U and M: they are for their number's own slot.
#[tactic(auto, unfolding(rules::specs::Walks::first))]
fn decide_entry(
    register: &[u8],
    guide: &[u8],
    header: Header,
    rec: &[u8],
    c: Code,
    d: Day,
    own: Option<usize>,
) -> Result<Act, Undone>
    ensures answer { is_insert c ≡ false → as_answer result ≡ late_answer register.now guide.now header rec.now c d own }
    ensures act { IfOk result (Does register.now guide.now header rec.now c own) }
{
    let slot = own.ok_or(Undone::NotThere)?;
    check_entry(register::slot_at(register, slot), rec, c, d)?;
    if codes::does_store(c) {
        let row = row_over(guide, rec)?;
        return Ok(Act::Store { slot, row });
    }
    Ok(Act::Restate { slot })
}

// The date first, then what the code asks of the number's slot, of the row and of a spare slot.
#[tactic(auto, unfolding(rules::specs::Walks::first, rules::specs::Records::answer_of, rules::specs::Records::find_number))]
fn decide(
    register: &[u8],
    guide: &[u8],
    header: Header,
    rec: &[u8],
    c: Code,
    d: Day,
) -> Result<Act, Undone>
    ensures answer { as_answer result ≡ answer_of register.now guide.now header rec.now c d }
    ensures act { IfOk result (Does register.now guide.now header rec.now c (find_number (number_of rec.now) register.now)) }
{
    let own = register::find_number(register, field::number(rec)).found;
    if header.day.is_before(d) {
        return Err(Undone::AfterHeader);
    }
    if codes::is_insert(c) {
        return decide_insert(register, guide, header, rec, d, own);
    }
    decide_entry(register, guide, header, rec, c, d, own)
}

// The slot's part of the register is lent on to be written.
#[tactic(auto, using(crate::proofs::ActLaws::storing))]
fn store_at(register: &mut [u8], i: usize, state: u8, d: Day, rec: &[u8], row: &[u8])
    requires { (i < slots register.old) × (length rec.now ≡ 512) }
    ensures { register.new ≡ with_slot register.old i (slot_of state d (shown rec.now row.now)) }
{
    let a = i * register::SLOT;
    let e = a + register::SLOT;
    register::write_shown(&mut register[a..e], state, d, rec, row);
}

#[tactic(auto, using(crate::proofs::ActLaws::restating))]
fn restate_at(register: &mut [u8], i: usize, state: u8, d: Day)
    requires { i < slots register.old }
    ensures { register.new ≡ with_slot register.old i (slot_of state d (record_of (slot_at register.old i))) }
{
    let a = i * register::SLOT;
    let e = a + register::SLOT;
    register::restate(&mut register[a..e], state, d);
}

// One data record on what the earlier ones left: its answer, and the register afterwards.
#[tactic(auto, using(crate::proofs::ActLaws::slot_within, crate::proofs::ActLaws::filed_whole), unfolding(rules::specs::Records::applied, rules::specs::Records::step, rules::specs::Records::register_after))]
pub fn apply_record(register: &mut [u8], guide: &[u8], header: Header, rec: &[u8]) -> u8
    ensures { (result ≡ (applied register.old guide.now header rec.now).answer)
        × (register.new ≡ (applied register.old guide.now header rec.now).register) }
{
    let Some((c, d)) = codes::filed(rec) else {
        return Undone::AfterHeader.number();
    };
    let state = codes::state_after(c);
    match decide(&register[..], guide, header, rec, c, d) {
        Ok(Act::Store { slot, row }) => {
            store_at(
                &mut register[..],
                slot,
                state,
                d,
                rec,
                guide::row_at(guide, row),
            );
        }
        Ok(Act::Restate { slot }) => restate_at(&mut register[..], slot, state, d),
        Err(why) => return why.number(),
    }
    answering::DONE
}
