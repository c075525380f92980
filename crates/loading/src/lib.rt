// The load file: header, each held and open record in slot order, trailer. It is refused by its number, and then nothing is written.
#![tactic(auto)]

ghost use Rattle.std.specs.Prelude.{◌≡◌, [], ◌++◌, ◌+◌, ◌*◌, ◌≤◌, length, take, drop, cond, IfOk};
ghost use Rattle.layout.specs.Fields.{for_load};
ghost use Rattle.rules.specs.Walks.{sought, find};
ghost use Rattle.rules.specs.Slots.{slots, record_of};
ghost use Rattle.versions.specs.declared.Version.TheVariants.{One};
ghost use Rattle.versions.specs.Versions.{narrowed, narrow_of};
ghost use Rattle.rules.specs.declared.Kind.TheVariants.{Data};
ghost use Rattle.rules.specs.Takes.{shape_of, edges};
ghost use Rattle.rules.specs.Loads.{is_entry, entries_in, lines_to, load_file, load_size, load_header, is_later_entry, later_at};
ghost use Rattle.rules.specs.Refusing.{number_told, slot_told};
ghost use Rattle.rules.specs.Loads.{is_wide_entry, wide_at, narrow_refusal, header_refusal, load_refusal, wide_slot, WritesLoad};

use calendar::Day;
use layout::counter::Cycle;
use layout::frame::Header;
use layout::{field, place, table};
use lines::frame;
use rules::refusing::Refused;
use rules::{Kind, Loaded, Sought, refusing};
use versions::Version;

// An entry whose day is after the load file's date.
fn is_later(slot: &[u8], day: Day) -> bool
    ensures { result ≡ is_later_entry day slot.now }
{
    is_entry(slot) && day.is_before(register::day(slot))
}

// The lowest such entry.
fn find_later(register: &[u8], day: Day) -> Sought
    ensures { result ≡ sought (later_at day register.now) (slots register.now) }
{
    walks::seek::<{ register::SLOT }, _>(register, |slot| is_later(slot, day))
}

// Held or open.
fn is_entry(slot: &[u8]) -> bool
    ensures { result ≡ is_entry slot.now }
{
    register::is_live(register::state(slot))
}

// How many entries there are; by the slot's number, as the definition's count goes.
#[tactic(auto, unfolding(rules::specs::Loads::entries_in, rules::specs::Walks::count))]
fn count_entries(register: &[u8]) -> usize
    ensures { (result ≡ entries_in register.now) × (result ≤ slots register.now) }
{
    let n = register.len() / register::SLOT;
    let mut entries: usize = 0;
    for i in 0..n {
        let a = i * register::SLOT;
        entries += usize::from(is_entry(&register[a..a + register::SLOT]));
    }
    entries
}

// How many bytes a load file of so many entries has.
fn load_size(version: Version, entries: usize) -> usize
    requires { entries ≤ 4096 }
    ensures { (result ≡ edges (Data version) + entries * (shape_of (Data version)).line) × (result ≤ 400 + entries * 512) }
{
    let sizes = shapes::sizes_of(Kind::Data(version));
    sizes.frame + sizes.frame + entries * sizes.line
}

// The header to be written, if date, name and cycle keep its rules.
#[tactic(auto, using(crate::proofs::WriteLaws::header_read), unfolding(rules::specs::Loads::load_header))]
fn header_for(version: Version, date: &[u8], company: &[u8], cycle: u32) -> Option<Header>
    ensures { result ≡ load_header version date.now company.now cycle }
{
    if date.len() != place::FRAME_DATE_SIZE || company.len() != place::NAME_SIZE {
        return None;
    }
    let sizes = shapes::sizes_of(Kind::Data(version));
    let n = sizes.frame;
    let fields = table::header_table(n);
    let mut line = [b' '; place::FRAME_SIZE];
    frame::put_header(&mut line[0..n], date, company, Cycle::given(cycle));
    frame::header_in(&fields, &line[0..n])
}

// An entry that Version 1 does not have all of.
fn is_wide(slot: &[u8]) -> bool
    ensures { result ≡ is_wide_entry One slot.now }
{
    is_entry(slot) && !versions::does_narrow(register::rec(slot))
}

// The lowest such entry.
fn find_wide_entry(register: &[u8]) -> Sought
    ensures { result ≡ sought (wide_at One register.now) (slots register.now) }
{
    walks::seek::<{ register::SLOT }, _>(register, is_wide)
}

// The lowest entry that does not fit in the version. In Version 2 every one does, and none is looked at.
#[tactic(auto, using(crate::proofs::WriteLaws::two_none))]
fn find_wide(version: Version, register: &[u8]) -> Option<usize>
    ensures { result ≡ find (wide_at version register.now) (slots register.now) }
{
    match version {
        Version::One => find_wide_entry(register).found,
        Version::Two => None,
    }
}

// 27 and 25: an entry that does not fit in the version, and then the room; how many entries there are.
#[tactic(auto, using(crate::proofs::WriteLaws::size_of, rules::proofs::WalkLaws::find_some), unfolding(rules::specs::Loads::narrow_refusal, rules::specs::Loads::wide_slot))]
fn check_entries(version: Version, register: &[u8], room: usize) -> Result<usize, Refused>
    requires { slots register.now ≤ 4096 }
    ensures number { number_told result ≡ narrow_refusal version register.now room }
    ensures slot { slot_told result ≡ wide_slot version register.now (number_told result) }
    ensures entries { IfOk result (λ n. (n ≤ 4096) × ((n ≡ entries_in register.now) × (load_size version register.now ≤ room))) }
{
    if let Some(i) = find_wide(version, register) {
        return Err(Refused::NoV1 { slot: i as u32 });
    }
    let entries = count_entries(register);
    if load_size(version, entries) > room {
        return Err(Refused::OutputShort);
    }
    Ok(entries)
}

// 26: the header and the entries' days; and then 27 and 25.
#[tactic(auto, unfolding(rules::specs::Loads::header_refusal, rules::specs::Loads::wide_slot))]
fn check_header(
    version: Version,
    register: &[u8],
    date: &[u8],
    company: &[u8],
    cycle: u32,
    room: usize,
) -> Result<usize, Refused>
    requires { slots register.now ≤ 4096 }
    ensures number { number_told result ≡ header_refusal version register.now date.now company.now cycle room }
    ensures slot { slot_told result ≡ wide_slot version register.now (number_told result) }
    ensures entries { IfOk result (λ n. (n ≤ 4096) × ((n ≡ entries_in register.now) × (load_size version register.now ≤ room))) }
{
    let h = header_for(version, date, company, cycle).ok_or(Refused::LoadHeader)?;
    if find_later(register, h.day).found.is_some() {
        return Err(Refused::LoadHeader);
    }
    check_entries(version, register, room)
}

// Whether the load file is refused, and why; else how many entries it has.
#[tactic(auto, using(crate::proofs::WriteLaws::few_slots), unfolding(rules::specs::Loads::load_refusal, rules::specs::Loads::wide_slot))]
fn check_load(
    version: Version,
    register: &[u8],
    date: &[u8],
    company: &[u8],
    cycle: u32,
    room: usize,
) -> Result<usize, Refused>
    ensures number { number_told result ≡ load_refusal version register.now date.now company.now cycle room }
    ensures slot { slot_told result ≡ wide_slot version register.now (number_told result) }
    ensures entries { IfOk result (λ n. (n ≤ 4096) × ((n ≡ entries_in register.now) × (load_size version register.now ≤ room))) }
{
    if !sound::is_register_sound(register) {
        return Err(Refused::Register);
    }
    check_header(version, register, date, company, cycle, room)
}

// One record, as it stands in a load file of Version 2.
fn write_wide(line: &mut [u8], rec: &[u8])
    requires { length rec.now ≡ length line.old }
    ensures { line.new ≡ for_load rec.now }
{
    text::put(line, 0, rec);
    field::mark_for_load(line);
}

// One record, as it stands in a load file of Version 1: marked in a copy, and narrowed from there.
fn write_narrow(line: &mut [u8], rec: &[u8])
    requires { (length rec.now ≡ 512) × (length line.old ≡ 240) }
    ensures { line.new ≡ narrowed (for_load rec.now) }
{
    let mut wide = [b' '; place::RECORD_SIZE];
    write_wide(&mut wide, rec);
    let narrow = versions::narrowed(&wide);
    text::put(line, 0, &narrow);
}

// One record, as it stands in a load file.
fn write_line(version: Version, line: &mut [u8], rec: &[u8])
    requires { (length rec.now ≡ 512) × (length line.old ≡ (shape_of (Data version)).line) }
    ensures { line.new ≡ narrow_of version (for_load rec.now) }
{
    match version {
        Version::One => write_narrow(line, rec),
        Version::Two => write_wide(line, rec),
    }
}

// The record of a slot, if it has an entry, from `at` on; where the next one goes.
fn write_entry(version: Version, slot: &[u8], out: &mut [u8], at: usize) -> usize
    requires { (length slot.now ≡ 520) × (at + cond (is_entry slot.now) (shape_of (Data version)).line 0 ≤ length out.old) }
    ensures { (result ≡ at + cond (is_entry slot.now) (shape_of (Data version)).line 0) × (out.new ≡ take at out.old ++ (cond (is_entry slot.now) (narrow_of version (for_load (record_of slot.now))) [] ++ drop result out.old)) }
{
    if !is_entry(slot) {
        return at;
    }
    let sizes = shapes::sizes_of(Kind::Data(version));
    let end = at + sizes.line;
    write_line(version, &mut out[at..end], register::rec(slot));
    end
}

// The records of all entries, one after the other; by the slot's number, as what is written so far is that of the slots below.
fn write_lines(version: Version, register: &[u8], out: &mut [u8])
    requires { entries_in register.now * (shape_of (Data version)).line ≤ length out.old }
    ensures { out.new ≡ lines_to version register.now (slots register.now) ++ drop (entries_in register.now * (shape_of (Data version)).line) out.old }
{
    let n = register.len() / register::SLOT;
    let mut at: usize = 0;
    for i in 0..n {
        let a = i * register::SLOT;
        at = write_entry(version, &register[a..a + register::SLOT], out, at);
    }
}

// Header, records and trailer.
fn write_file(
    version: Version,
    register: &[u8],
    date: &[u8],
    company: &[u8],
    cycle: u32,
    entries: usize,
    out: &mut [u8],
)
    requires { (entries ≤ 4096) × ((entries ≡ entries_in register.now) × (load_size version register.now ≤ length out.old)) }
    ensures { out.new ≡ load_file version register.now date.now company.now cycle ++ drop (load_size version register.now) out.old }
{
    let sizes = shapes::sizes_of(Kind::Data(version));
    let start = sizes.frame;
    let all = load_size(version, entries);
    let end = all - start;
    frame::put_header(&mut out[0..start], date, company, Cycle::given(cycle));
    write_lines(version, register, &mut out[start..end]);
    frame::put_trailer(&mut out[end..all], date, company, entries as u32);
}

// Writes a load file.
#[tactic(auto, unfolding(rules::specs::Loads::loaded, rules::specs::Loads::load_size))]
pub fn write_load(
    version: Version,
    register: &[u8],
    date: &[u8],
    company: &[u8],
    cycle: u32,
    out: &mut [u8],
) -> Loaded
    ensures { WritesLoad version register.now date.now company.now cycle out.old result out.new }
{
    match check_load(version, register, date, company, cycle, out.len()) {
        Err(why) => Loaded {
            refusal: why.number(),
            bytes: 0,
            entries: 0,
            slot: why.slot(),
        },
        Ok(entries) => {
            write_file(version, register, date, company, cycle, entries, out);
            Loaded {
                refusal: refusing::NONE,
                bytes: load_size(version, entries) as u32,
                entries: entries as u32,
                slot: 0,
            }
        }
    }
}
