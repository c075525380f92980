// Writing the one tagged text of a record: labels in the exhibit's order, blank fields omitted.
ghost use Rattle.std.specs.Option.{is_none};
ghost use Rattle.std.specs.Prelude.{◌≡◌, ◌+◌, ◌<◌, ◌≤◌, [], ◌++◌, length};
ghost use Rattle.rules.specs.Walks.{find};
ghost use Rattle.tag_rules.specs.Writing.{pair_of, tagged_of, room_at, is_bare, unformed_at, has_form, WritesText};

use crate::table;
use crate::written::Written;
use layout::place;
use rules::refusing::{self, Refused};
use tag_rules::Tagged;
use text::Class;

// No text is longer: `DAT` and newline, and for each label `|`, its letters and the longest value that it may have.
const LONGEST: usize = 452;

// Source, X to Z and Reserved have no label: they are blank.
#[tactic(auto, unfolding(tag_rules::specs::Writing::is_bare))]
fn is_bare(rec: &[u8]) -> bool
    ensures { result ≡ is_bare rec.now }
{
    let source = text::is_blank(text::part_of(rec, place::SOURCE_AT, place::SOURCE_SIZE));
    let xyz = text::is_blank(text::part_of(rec, place::X_AT, place::XYZ_SIZE));
    let reserved = text::is_blank(text::part_of(rec, place::RESERVED_AT, place::RESERVED_SIZE));
    source & (xyz & reserved)
}

// The bytes of every label have a tagged form; by the label's number, by which the table's rows are known.
fn are_formed(rec: &[u8]) -> bool
    ensures { result ≡ is_none (find (unformed_at rec.now) 28) }
{
    for k in 0..table::COUNT {
        let row = table::row_at(k);
        if !row.form.is_formed(row.field(rec)) {
            return false;
        }
    }
    true
}

// 37: whether a record has a tagged form.
#[tactic(auto, unfolding(tag_rules::specs::Writing::has_form))]
fn has_form(rec: &[u8]) -> bool
    ensures { result ≡ has_form rec.now }
{
    text::all_in(rec, Class::Unbarred) & (is_bare(rec) & are_formed(rec))
}

// The pair of label k, if its bytes are not blank.
fn write_pair(rec: &[u8], k: usize, line: &mut Written<LONGEST>)
    requires label { k < 28 }
    requires long { length rec.now ≡ 512 }
    requires room { length line.old + room_at k ≤ 452 }
    ensures { line.new ≡ line.old ++ pair_of rec.now k }
{
    let row = table::row_at(k);
    let field = row.field(rec);
    if !text::is_blank(field) {
        line.append(&row.label);
        row.form.write(field, line);
    }
}

// `DAT`, the pairs of all labels, and a newline.
fn write_text(rec: &[u8], line: &mut Written<LONGEST>)
    requires long { length rec.now ≡ 512 }
    requires empty { line.old ≡ [] }
    ensures { line.new ≡ tagged_of rec.now }
{
    line.append(b"DAT");
    for k in 0..table::COUNT {
        write_pair(rec, k, line);
    }
    line.append(b"\n");
}

// Writes the tagged text of a record. Refused by 9, 37 and 25, first hit decides, before a byte is written.
#[tactic(auto, using(crate::proofs::TextLaws::fault_fits), unfolding(tag_rules::specs::Writing::text_written, tag_rules::specs::Writing::write_refusal, rules::specs::Walks::first))]
pub fn write(rec: &[u8], out: &mut [u8]) -> Tagged
    ensures { WritesText rec.now out.old result out.new }
{
    if rec.len() != place::RECORD_SIZE {
        return crate::refused(Refused::FieldRule {
            place: 0,
            position: 0,
        });
    }
    let fault = faults::record_fault(rec);
    if fault != 0 {
        return crate::refused(Refused::FieldRule {
            place: 0,
            position: fault as u32,
        });
    }
    if !has_form(rec) {
        return crate::refused(Refused::NoTaggedForm);
    }
    let mut line = Written::new();
    write_text(rec, &mut line);
    let bytes = line.as_slice();
    if out.len() < bytes.len() {
        return crate::refused(Refused::OutputShort);
    }
    out[..bytes.len()].copy_from_slice(bytes);
    Tagged {
        refusal: refusing::NONE,
        position: 0,
        bytes: bytes.len() as u32,
    }
}
