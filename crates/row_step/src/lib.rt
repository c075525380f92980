// One guide row: the answers 21 to 24 and 0, and what 0 does.
#![tactic(auto)]

ghost use Rattle.std.specs.Prelude.{◌≡◌, ◌<◌, length, Some, MatchResult};
ghost use Rattle.rules.specs.declared.RowCode.TheVariants.{Insert, Delete};
ghost use Rattle.rules.specs.Answering.{as_answer};
ghost use Rattle.rules.specs.Walks.{first};
ghost use Rattle.rules.specs.Slots.{row_slots, with_row_slot, row_slot_of, free_row_slot};
ghost use Rattle.rules.specs.Rows.{find_clash, find_vacant, find_same, insert_table, delete_table, guide_after, row_applied};

use layout::frame::Header;
use rules::RowCode;
use rules::answering::{self, Undone};

// The slot's part of the guide is lent on to be written.
#[tactic(auto, using(crate::proofs::RowLaws::writing))]
fn write_at(guide: &mut [u8], k: usize, row: &[u8])
    requires { (k < row_slots guide.old) × (length row.now ≡ 200) }
    ensures { guide.new ≡ with_row_slot guide.old k (row_slot_of row.now) }
{
    let a = k * guide::SLOT;
    let e = a + guide::SLOT;
    guide::write_row(&mut guide[a..e], row);
}

#[tactic(auto, using(crate::proofs::RowLaws::clearing))]
fn clear_at(guide: &mut [u8], k: usize)
    requires { k < row_slots guide.old }
    ensures { guide.new ≡ with_row_slot guide.old k free_row_slot }
{
    let a = k * guide::SLOT;
    let e = a + guide::SLOT;
    guide::clear_row(&mut guide[a..e]);
}

// I: 21 where a present row clashes with it, 22 where no slot is free, else it is stored in the lowest.
#[tactic(auto, using(rules::proofs::WalkLaws::find_some), unfolding(rules::specs::Walks::first, rules::specs::Rows::find_clash, rules::specs::Rows::find_vacant))]
fn insert_row(guide: &mut [u8], row: &[u8]) -> Result<(), Undone>
    requires { length row.now ≡ 200 }
    ensures answer { as_answer result ≡ first (insert_table (find_clash row.now guide.old) (find_vacant guide.old)) }
    ensures after { MatchResult result (λ _. guide.new ≡ guide_after guide.old row.now (Some Insert)) (λ _. guide.new ≡ guide.old) }
{
    if guide::find_clash(&guide[..], row).found.is_some() {
        return Err(Undone::Clash);
    }
    let k = guide::find_vacant(&guide[..])
        .found
        .ok_or(Undone::GuideFull)?;
    write_at(&mut guide[..], k, row);
    Ok(())
}

// D: 23 where no row is the same, 24 where it covers a held or open entry, else its slot becomes all zero.
#[tactic(auto, using(rules::proofs::WalkLaws::find_some), unfolding(rules::specs::Walks::first, rules::specs::Rows::find_same, rules::specs::Rows::find_entry))]
fn delete_row(register: &[u8], guide: &mut [u8], row: &[u8]) -> Result<(), Undone>
    ensures answer { as_answer result ≡ first (delete_table register.now guide.old (find_same row.now guide.old)) }
    ensures after { MatchResult result (λ _. guide.new ≡ guide_after guide.old row.now (Some Delete)) (λ _. guide.new ≡ guide.old) }
{
    let k = guide::find_same(&guide[..], row)
        .found
        .ok_or(Undone::NoSuchRow)?;
    if register::find_entry(register, guide::row_at(&guide[..], k))
        .found
        .is_some()
    {
        return Err(Undone::RowInUse);
    }
    clear_at(&mut guide[..], k);
    Ok(())
}

// One guide row on what the earlier ones left: its answer, and the guide afterwards.
#[tactic(auto, using(crate::proofs::RowLaws::row_whole), unfolding(rules::specs::Rows::row_applied))]
pub fn apply_row(register: &[u8], guide: &mut [u8], header: Header, row: &[u8]) -> u8
    ensures { (result ≡ (row_applied register.now guide.old header row.now).answer)
        × (guide.new ≡ (row_applied register.now guide.old header row.now).guide) }
{
    let done = match codes::row_code(row) {
        Some(RowCode::Insert) => insert_row(&mut guide[..], row),
        Some(RowCode::Delete) => delete_row(register, &mut guide[..], row),
        None => Err(Undone::NoSuchRow),
    };
    match done {
        Ok(()) => answering::DONE,
        Err(why) => why.number(),
    }
}
