// The rules of the fields, and the one checker that holds a line against its table.
ghost use Rattle.std.specs.Prelude.{◌≡◌, [], ◌∷◌};
ghost use Rattle.layout.specs.Rules.{left_justified, needed_in, spared, is_direction, is_date, is_cycle, is_tally, keeps_frame, keeps_other, keeps};
ghost use Rattle.layout.specs.Rules.{house_fault, end_fault, high_fault, parity_fault, is_whole, rule_by, fault_by, from_zero, fault_in};

use layout::table::{
    CAPITALS, CLOSING, CODE, CODES, COMPANY_LEAST, COMPANY_LETTERS, COMPANY_MOST, DIGITS,
    DIRECTION, FIRST_CODE, FIRST_CODES, FREE, HEADER_LETTERS, HIGH_END, HOUSE, LOW_END, MMDDYY,
    NAMED, ONE_DIGIT, OPENING, PARITY_LETTER, ROW_CODE, ROW_CODES, ROW_ZONE, ROW_ZONE_LEAST,
    ROW_ZONE_MOST, SOURCES, SPACE_OR_C, STAR, STARS, TALLY, TEXT, TRAILER_LETTERS, TURN, TYPES,
    ZERO_TO_FIVE, ZONE, ZONE_LEAST, ZONE_MOST,
};
use layout::{counter, field};
use text::Class;

// Left-justified: its first byte is no space, or it is blank.
fn is_left(f: &[u8]) -> bool
    ensures { result ≡ left_justified f.now }
{
    text::byte_of(f, 0) != b' ' || text::is_blank(f)
}

// Blank, where it may be.
pub fn is_spared(lax: bool, f: &[u8]) -> bool
    ensures { result ≡ spared lax f.now }
{
    lax && text::is_blank(f)
}

// Left-justified, and blank only where it may be.
fn is_needed(lax: bool, f: &[u8]) -> bool
    ensures { result ≡ needed_in lax f.now }
{
    text::byte_of(f, 0) != b' ' || is_spared(lax, f)
}

// Whether two bytes are a directional: of one letter or none with a space behind, or of two letters.
#[tactic(auto, unfolding(layout::specs::Rules::is_direction))]
pub fn is_directional(a: u8, b: u8) -> bool
    ensures { result ≡ is_direction (a ∷ (b ∷ [])) }
{
    matches!(
        (a, b),
        (b' ' | b'N' | b'S' | b'E' | b'W', b' ') | (b'N' | b'S', b'E' | b'W')
    )
}

#[tactic(auto, unfolding(layout::specs::Rules::is_direction))]
fn is_direction(f: &[u8]) -> bool
    ensures { result ≡ is_direction f.now }
{
    is_directional(text::byte_of(f, 0), text::byte_of(f, 1))
}

#[tactic(auto, unfolding(layout::specs::Rules::is_date))]
pub fn is_date(f: &[u8]) -> bool
    ensures { result ≡ is_date f.now }
{
    calendar::day_in(f).is_some()
}

#[tactic(auto, unfolding(layout::specs::Rules::is_cycle))]
fn is_cycle(f: &[u8]) -> bool
    ensures { result ≡ is_cycle f.now }
{
    counter::cycle_in(f).is_some()
}

#[tactic(auto, unfolding(layout::specs::Rules::is_tally))]
fn is_tally(f: &[u8]) -> bool
    ensures { result ≡ is_tally f.now }
{
    counter::count_in(f).is_some()
}

// The rules of header and trailer.
#[tactic(auto, unfolding(layout::specs::Rules::keeps_frame))]
fn keeps_frame(rule: usize, f: &[u8]) -> bool
    ensures { result ≡ keeps_frame rule f.now }
{
    match rule {
        OPENING => text::same(f, &HEADER_LETTERS),
        CLOSING => text::same(f, &TRAILER_LETTERS),
        TURN => is_cycle(f),
        TALLY => is_tally(f),
        _ => false,
    }
}

// The rules that do not ask whether the field may be blank.
#[tactic(auto, unfolding(layout::specs::Rules::keeps_other))]
#[inline(always)]
fn keeps_other(rule: usize, f: &[u8]) -> bool
    ensures { result ≡ keeps_other rule f.now }
{
    match rule {
        SPACE_OR_C => text::all_of(f, &SOURCES),
        ZONE => text::runs(f, Class::Digit, ZONE_LEAST, ZONE_MOST),
        COMPANY_LETTERS => text::runs(f, Class::CapitalOrDigit, COMPANY_LEAST, COMPANY_MOST),
        MMDDYY => is_date(f),
        STAR => text::all_of(f, &STARS),
        ROW_ZONE => text::runs(f, Class::Digit, ROW_ZONE_LEAST, ROW_ZONE_MOST),
        ROW_CODE => text::all_of(f, &ROW_CODES),
        FIRST_CODE => text::all_of(f, &FIRST_CODES),
        _ => keeps_frame(rule, f),
    }
}

// Whether a field keeps its rule; lax where it may be blank, in D and U.
#[tactic(auto, unfolding(layout::specs::Rules::keeps))]
#[inline(always)]
fn does_keep(rule: usize, lax: bool, f: &[u8]) -> bool
    ensures { result ≡ keeps rule lax f.now }
{
    match rule {
        FREE => true,
        TEXT => is_left(f),
        NAMED => is_needed(lax, f),
        CODE => text::all_of(f, &CODES),
        DIGITS => text::all_in(f, Class::Digit),
        DIRECTION => is_direction(f),
        ONE_DIGIT => is_spared(lax, f) || text::all_in(f, Class::Digit),
        ZERO_TO_FIVE => is_spared(lax, f) || text::all_of(f, &TYPES),
        CAPITALS => is_spared(lax, f) || text::all_in(f, Class::Capital),
        _ => keeps_other(rule, f),
    }
}

// The number is taken, or the field's start is the fault.
#[tactic(auto, unfolding(layout::specs::Rules::house_fault))]
fn house_fault(at: usize, f: &[u8]) -> usize
    ensures { result ≡ house_fault at f.now }
{
    let Some(_) = field::house_in(f) else {
        return at;
    };
    0
}

#[tactic(auto, unfolding(layout::specs::Rules::end_fault))]
fn end_fault(at: usize, f: &[u8]) -> usize
    ensures { result ≡ end_fault at f.now }
{
    let Some(_) = field::end_in(f) else {
        return at;
    };
    0
}

// High is an end, and Low is no more than it.
#[tactic(auto, unfolding(layout::specs::Rules::high_fault))]
fn high_fault(at: usize, row: &[u8]) -> usize
    ensures { result ≡ high_fault at row.now }
{
    match (field::high(row), field::low(row)) {
        (Some(high), Some(low)) if low <= high => 0,
        _ => at,
    }
}

// Both ends are of the parity; a letter other than O, E and B allows none.
#[tactic(auto, unfolding(layout::specs::Rules::parity_fault))]
fn parity_fault(at: usize, row: &[u8]) -> usize
    ensures { result ≡ parity_fault at row.now }
{
    let p = field::parity(row);
    match (field::low(row), field::high(row)) {
        (Some(low), Some(high)) if field::allowed(p, low) && field::allowed(p, high) => 0,
        _ => at,
    }
}

// All of the field is there, and each of its bytes is 20 to 7E hex.
#[tactic(auto, unfolding(layout::specs::Rules::is_whole))]
fn is_whole(n: usize, f: &[u8]) -> bool
    ensures { result ≡ is_whole n f.now }
{
    f.len() == n && text::all_in(f, Class::Printable)
}

// The fault of a field by its rule alone: its start, or 0 where it keeps its rule. It and the two that it asks are always inlined: where
// the rule is known when it is compiled, only that rule's test is left.
#[inline(always)]
pub fn rule_fault(at: usize, rule: usize, lax: bool, line: &[u8], f: &[u8]) -> usize
    ensures { result ≡ rule_by at rule lax line.now f.now }
{
    match rule {
        HOUSE => house_fault(at, f),
        LOW_END => end_fault(at, f),
        HIGH_END => high_fault(at, line),
        PARITY_LETTER => parity_fault(at, line),
        _ => { if does_keep(rule, lax, f) { 0 } else { at } }
    }
}

// The fault of field f of a line: its start, or 0 where it keeps its rule.
#[tactic(auto, unfolding(layout::specs::Rules::fault_by, layout::specs::Rules::is_whole))]
fn field_fault(at: usize, n: usize, rule: usize, lax: bool, line: &[u8], f: &[u8]) -> usize
    ensures { result ≡ fault_by at n rule lax line.now f.now }
{
    if is_whole(n, f) {
        rule_fault(at, rule, lax, line, f)
    } else {
        at
    }
}

// A position counts from 1, a place from 0.
pub fn from_zero(at: usize) -> usize
    ensures { result ≡ from_zero at }
{
    at.saturating_sub(1)
}

// The first byte, from 1, of the first field that breaks its rule; 0, the number of the definitions and of what is told, where each field
// of the table keeps its own.
#[tactic(auto, unfolding(layout::specs::Rules::fault_in))]
pub fn first_fault(table: &[usize], lax: bool, line: &[u8]) -> usize
    ensures { result ≡ fault_in lax line.now table.now }
{
    let mut fields = table;
    while let [at, n, rule, rest @ ..] = fields {
        let f = text::part_of(line, from_zero(*at), *n);
        let fault = field_fault(*at, *n, *rule, lax, line, f);
        if fault != 0 {
            return fault;
        }
        fields = rest;
    }
    0
}
