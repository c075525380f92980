// Header and trailer of a file, read to what taking needs. Their lengths are those of the tables handed in.
ghost use Rattle.std.specs.Prelude.{◌≡◌, length};
ghost use Rattle.layout.specs.Frames.{date_of, name_of, header_of, same_frame, trailer_of, frame_with, header_with, trailer_with};

use crate::check;
use layout::counter::{Count, Cycle};
use layout::frame::Header;
use layout::table::{HEADER_LETTERS, STARS, TRAILER_LETTERS};
use layout::{counter, place};

// The date of a header or a trailer, six bytes.
#[tactic(auto, unfolding(layout::specs::Frames::date_of))]
pub fn date(s: &[u8]) -> &[u8]
    ensures { result.now ≡ date_of s.now }
{
    text::part_of(s, place::FRAME_DATE_AT, place::FRAME_DATE_SIZE)
}

// The company name of a header or a trailer, 50 bytes.
#[tactic(auto, unfolding(layout::specs::Frames::name_of))]
pub fn name(s: &[u8]) -> &[u8]
    ensures { result.now ≡ name_of s.now }
{
    text::part_of(s, place::NAME_AT, place::NAME_SIZE)
}

// The day and the cycle of a header; none where it is wrong.
#[tactic(auto, unfolding(layout::specs::Frames::header_of))]
pub fn header_in(table: &[usize], s: &[u8]) -> Option<Header>
    ensures { result ≡ header_of table.now s.now }
{
    if check::first_fault(table, false, s) != 0 {
        return None;
    }
    let day = calendar::day_in(date(s))?;
    let cycle = counter::cycle_in(text::part_of(s, place::CYCLE_AT, place::CYCLE_SIZE))?;
    Some(Header { day, cycle })
}

// Whether a trailer has the date and the name of its header.
#[tactic(auto, unfolding(layout::specs::Frames::same_frame))]
fn is_same_frame(header: &[u8], trailer: &[u8]) -> bool
    ensures { result ≡ same_frame header.now trailer.now }
{
    text::same(date(header), date(trailer)) && text::same(name(header), name(trailer))
}

// The record count of a trailer; none where it is wrong: in itself, or beside its header.
#[tactic(auto, unfolding(layout::specs::Frames::trailer_of))]
pub fn trailer_in(table: &[usize], header: &[u8], s: &[u8]) -> Option<Count>
    ensures { result ≡ trailer_of table.now header.now s.now }
{
    if check::first_fault(table, false, s) != 0 || !is_same_frame(header, s) {
        return None;
    }
    counter::count_in(text::part_of(s, place::COUNT_AT, place::COUNT_SIZE))
}

// The letters, date, company name and counter of a header or a trailer, and `*`; the free part is spaces.
#[tactic(auto, unfolding(layout::specs::Frames::frame_with))]
fn put_frame(s: &mut [u8], letters: &[u8], date: &[u8], company: &[u8], counter: &[u8])
    ensures { s.new ≡ frame_with letters.now date.now company.now counter.now (length s.old) }
{
    let star = check::from_zero(s.len()); // the last byte, whichever length
    text::fill(&mut s[..], b' ');
    text::put(&mut s[..], star, &STARS);
    text::put(&mut s[..], place::CYCLE_AT, counter);
    text::put(&mut s[..], place::NAME_AT, company);
    text::put(&mut s[..], place::FRAME_DATE_AT, date);
    text::put(&mut s[..], place::OPENER_AT, letters);
}

// A header; its cycle has no leading zero.
#[tactic(auto, unfolding(layout::specs::Frames::header_with))]
pub fn put_header(s: &mut [u8], date: &[u8], company: &[u8], cycle: Cycle)
    ensures { s.new ≡ header_with date.now company.now cycle.0 (length s.old) }
{
    let mut counter = [b' '; place::CYCLE_SIZE];
    cycle.put(&mut counter);
    put_frame(&mut s[..], &HEADER_LETTERS, date, company, &counter);
}

// A trailer of n records.
#[tactic(auto, unfolding(layout::specs::Frames::trailer_with))]
pub fn put_trailer(s: &mut [u8], date: &[u8], company: &[u8], n: u32)
    ensures { s.new ≡ trailer_with date.now company.now n (length s.old) }
{
    let mut counter = [b' '; place::COUNT_SIZE];
    text::put_right(&mut counter, n);
    put_frame(&mut s[..], &TRAILER_LETTERS, date, company, &counter);
}
