// The checks of a file, in the order of the refusals. Nothing is written here.
ghost use Rattle.std.specs.Prelude.{◌≡◌, ◌≤◌};
ghost use Rattle.layout.specs.Tables.{header_table, trailer_table};
ghost use Rattle.layout.specs.Frames.{header_of, trailer_of};
ghost use Rattle.rules.specs.declared.Kind.TheVariants.{Data};
ghost use Rattle.rules.specs.Refusing.{told};
ghost use Rattle.rules.specs.Takes.{shape_of, line_fault, lines_in, good_file, header_line, trailer_line, line_at, lines_checked, trailer_checked, frame_checked, checked};

use layout::counter::{Count, Cycle};
use layout::frame::Header;
use layout::table;
use lines::frame;
use rules::Kind;
use rules::refusing::Refused;
use versions::Version;

// A file has at most so many lines.
const MOST: usize = 9999;

// How many lines stand between header and trailer.
#[tactic(auto, unfolding(rules::specs::Takes::lines_in))]
pub fn lines_in(kind: Kind, file: &[u8]) -> usize
    ensures { result ≡ lines_in kind file.now }
{
    let sizes = shapes::sizes_of(kind);
    let edges = sizes.frame + sizes.frame;
    file.len().saturating_sub(edges) / sizes.line
}

// Line i, as a part of the file; behind the last line, what bytes there are.
#[tactic(auto, unfolding(rules::specs::Takes::line_at))]
pub fn line_at(kind: Kind, file: &[u8], i: usize) -> &[u8]
    requires { i ≤ 9999 }
    ensures { result.now ≡ line_at kind file.now i }
{
    let sizes = shapes::sizes_of(kind);
    text::part_of(file, sizes.frame + i * sizes.line, sizes.line)
}

// Whole lines, and at most 9999 of them.
#[tactic(auto, unfolding(rules::specs::Takes::good_file))]
fn is_good_file(kind: Kind, file: &[u8]) -> bool
    ensures { result ≡ good_file kind file.now }
{
    let sizes = shapes::sizes_of(kind);
    let edges = sizes.frame + sizes.frame;
    file.len() >= edges && (file.len() - edges) % sizes.line == 0 && lines_in(kind, file) <= MOST
}

// The first fault of a record, with the positions of its version.
fn record_fault(version: Version, line: &[u8]) -> usize
    ensures { result ≡ line_fault (Data version) line.now }
{
    match version {
        Version::One => faults::narrow_fault(line),
        Version::Two => faults::record_fault(line),
    }
}

// The first fault of a record or a row.
fn line_fault(kind: Kind, line: &[u8]) -> usize
    ensures { (result ≡ line_fault kind line.now) × (result ≤ 512) }
{
    match kind {
        Kind::Data(version) => record_fault(version, line),
        Kind::Guide => faults::row_fault(line),
    }
}

// 9: the first line that breaks a field rule.
#[tactic(auto, using(rules::proofs::WalkLaws::passed_more, crate::proofs::LoopLaws::bad_not, crate::proofs::LoopLaws::lines_bad, crate::proofs::LoopLaws::lines_good), unfolding(rules::specs::Walks::find))]
fn check_lines(kind: Kind, file: &[u8], n: usize, h: Header) -> Result<Header, Refused>
    requires { (n ≡ lines_in kind file.now) × (n ≤ 9999) }
    ensures { told result ≡ lines_checked kind file.now h }
{
    for i in 0..n {
        let fault = line_fault(kind, line_at(kind, file, i));
        if fault != 0 {
            return Err(Refused::FieldRule {
                place: (i + 1) as u32,
                position: fault as u32,
            });
        }
    }
    Ok(h)
}

#[tactic(auto, unfolding(rules::specs::Takes::header_line))]
fn header_line(kind: Kind, file: &[u8]) -> &[u8]
    ensures { result.now ≡ header_line kind file.now }
{
    let sizes = shapes::sizes_of(kind);
    text::part_of(file, 0, sizes.frame)
}

#[tactic(auto, unfolding(rules::specs::Takes::trailer_line))]
fn trailer_line(kind: Kind, file: &[u8]) -> &[u8]
    ensures { result.now ≡ trailer_line kind file.now }
{
    let sizes = shapes::sizes_of(kind);
    text::part_of(file, file.len().saturating_sub(sizes.frame), sizes.frame)
}

// What the header says, by the table for its length.
fn header_in(kind: Kind, file: &[u8]) -> Option<Header>
    ensures { result ≡ header_of (header_table (shape_of kind).frame) (header_line kind file.now) }
{
    let sizes = shapes::sizes_of(kind);
    let fields = table::header_table(sizes.frame);
    frame::header_in(&fields, header_line(kind, file))
}

// What the trailer says, in the same way, beside the header.
fn trailer_in(kind: Kind, file: &[u8]) -> Option<Count>
    ensures { result ≡ trailer_of (trailer_table (shape_of kind).frame) (header_line kind file.now) (trailer_line kind file.now) }
{
    let sizes = shapes::sizes_of(kind);
    let fields = table::trailer_table(sizes.frame);
    frame::trailer_in(&fields, header_line(kind, file), trailer_line(kind, file))
}

// 7 and 8: the trailer, and then the lines.
#[tactic(auto, unfolding(rules::specs::Takes::trailer_checked))]
fn check_trailer(kind: Kind, file: &[u8], h: Header) -> Result<Header, Refused>
    requires { lines_in kind file.now ≤ 9999 }
    ensures { told result ≡ trailer_checked kind file.now h }
{
    let count = trailer_in(kind, file).ok_or(Refused::Trailer)?;
    let n = lines_in(kind, file);
    if !count.is(n) {
        return Err(Refused::Count);
    }
    check_lines(kind, file, n, h)
}

// 5 and 6: the header and its cycle, and then the trailer.
#[tactic(auto, unfolding(rules::specs::Takes::frame_checked))]
fn check_frame(kind: Kind, file: &[u8], last: Cycle) -> Result<Header, Refused>
    requires { lines_in kind file.now ≤ 9999 }
    ensures { told result ≡ frame_checked kind file.now last }
{
    let h = header_in(kind, file).ok_or(Refused::Header)?;
    if !last.is_next(h.cycle) {
        return Err(Refused::Cycle);
    }
    check_trailer(kind, file, h)
}

// 1 to 4: the stores, the file's length and the room for answers; and then the frame.
#[tactic(auto, using(crate::proofs::LoopLaws::good_lines), unfolding(rules::specs::Takes::checked))]
pub fn check_file(
    kind: Kind,
    register: &[u8],
    guide: &[u8],
    file: &[u8],
    room: usize,
    last: Cycle,
) -> Result<Header, Refused>
    ensures { told result ≡ checked kind (record { register = register.now; guide = guide.now }) file.now room last }
{
    if !sound::is_register_sound(register) {
        return Err(Refused::Register);
    }
    if !sound::is_guide_sound(guide) {
        return Err(Refused::Guide);
    }
    if !is_good_file(kind, file) {
        return Err(Refused::FileLength);
    }
    if lines_in(kind, file) > room {
        return Err(Refused::AnswersShort);
    }
    check_frame(kind, file, last)
}
