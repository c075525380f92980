// The two versions of a data record, 2026-01: a record of Version 1 as one of Version 2, and back.
#![tactic(auto)]

ghost use Rattle.std.specs.Prelude.{◌≡◌, ◌<◌};
ghost use Rattle.layout.specs.Tables.{start_of, size_of};
ghost use Rattle.versions.specs.Versions.{fields, table_of, end_of, moved, widened, narrowed, narrows};

use layout::table::RecordTable;
use layout::{place, table};

// Which layout the records of a data file have: the 240 bytes of document 003, Exhibit 1, or our 512.
#[derive(Clone, Copy)]
pub enum Version {
    One,
    Two,
}

// A record of Version 2, and one of Version 1.
pub type Wide = [u8; place::RECORD_SIZE];

pub type Narrow = [u8; place::NARROW_SIZE];

// How many fields a record has, in either version: its `*` is the last.
const FIELDS: usize = table::RECORD_STAR + 1;

// The table of a version, which is lent: one taken by value would be written to the stack.
fn table_of(version: Version) -> &'static RecordTable
    ensures { result.now ≡ table_of version }
{
    match version {
        Version::One => &table::NARROW,
        Version::Two => &table::RECORD,
    }
}

// Where a field starts, from 0, and how many bytes it has.
#[derive(Clone, Copy)]
struct Span {
    at: usize,
    size: usize,
}

// Where field k lies.
#[tactic(auto, using(crate::proofs::TableLaws::placed))]
fn span_of(version: Version, k: usize) -> Span
    requires { k < fields }
    ensures { (result.at ≡ start_of (table_of version) k) × (result.size ≡ size_of (table_of version) k) }
{
    let numbers = table_of(version);
    Span {
        at: numbers[3 * k] - 1,
        size: numbers[3 * k + 1],
    }
}

// A record as one of the other version, of N bytes: of each field the bytes that both versions have, and blanks behind.
#[tactic(auto, unfolding(crate::specs::Versions::move_to, crate::specs::Versions::end_of))]
fn moved<const N: usize>(rec: &[u8], from: Version, to: Version) -> [u8; N]
    requires { N ≡ end_of (table_of to) fields }
    ensures { result ≡ moved (table_of from) (table_of to) rec.now }
{
    let mut out = [b' '; N];
    for k in 0..FIELDS {
        let source = span_of(from, k);
        let target = span_of(to, k);
        let field = text::part_of(rec, source.at, source.size.min(target.size));
        text::put(&mut out, target.at, field);
    }
    out
}

// A record of Version 1 as one of Version 2: each field has its bytes, and blanks behind.
#[tactic(auto, using(crate::specs::Versions::data_ends, crate::proofs::TableLaws::moved_wide))]
pub fn widened(rec: &[u8]) -> Wide
    ensures { result ≡ widened rec.now }
{
    moved(rec, Version::One, Version::Two)
}

// A record of Version 2 as one of Version 1: of each field the first bytes, as many as it has there.
#[tactic(auto, using(crate::specs::Versions::narrow_ends, crate::proofs::TableLaws::moved_narrow))]
pub fn narrowed(rec: &[u8]) -> Narrow
    ensures { result ≡ narrowed rec.now }
{
    moved(rec, Version::Two, Version::One)
}

// Whether Version 1 has all of a record of Version 2: behind the bytes that it has of a field there are only blanks. Most fields have
// no byte behind, so it does not stop at the first that is not blank.
#[tactic(auto, using(crate::proofs::TableLaws::tail_start, crate::proofs::TableLaws::shorter))]
pub fn does_narrow(rec: &[u8]) -> bool
    ensures { result ≡ narrows rec.now }
{
    let mut all = true;
    for k in 0..FIELDS {
        let wide = span_of(Version::Two, k);
        let narrow = span_of(Version::One, k);
        let tail = text::part_of(rec, wide.at + narrow.size, wide.size - narrow.size);
        all = all & text::is_blank(tail);
    }
    all
}
