// Two of the counters that the standard keeps apart: the cycle of a header and the record count of a trailer. Their fields are
// private, so that neither is ever taken for the other, or for a day.
ghost use Rattle.std.specs.Prelude.{◌≡◌};
ghost use Rattle.layout.specs.Counters.{cycle_of, given_cycle, next_of, is_next_of, plain_digits, whole_count, count_of, is_count};
ghost use Rattle.text.specs.Text.{left_digits};

use crate::place;
use text::Class;

#[derive(Clone, Copy, PartialEq, Eq)]
pub struct Cycle(u32);

#[derive(Clone, Copy)]
pub struct Count(u32);

// The last cycle before 1 comes again.
const LAST: u32 = 999999;

// The cycle of a header's field, if it holds one.
#[tactic(auto, unfolding(crate::specs::Counters::cycle_of))]
pub fn cycle_in(f: &[u8]) -> Option<Cycle>
    ensures { result ≡ cycle_of f.now }
{
    match text::number_in(f, 1, place::CYCLE_SIZE) {
        Some(n @ 1..=LAST) => Some(Cycle(n)),
        _ => None,
    }
}

impl Cycle {
    // The last cycle that the caller hands in; 0 where none was taken yet.
    pub fn given(n: u32) -> Cycle
        ensures { result ≡ given_cycle n }
    {
        Cycle(n)
    }

    // The number that goes back to the caller.
    pub fn number(self) -> u32
        ensures { result ≡ self.0 }
    {
        self.0
    }

    // After 999999 comes 1; a last cycle above that has no next.
    pub fn next(self) -> Option<Cycle>
        ensures { result ≡ next_of self }
    {
        match self.0 {
            n @ ..LAST => Some(Cycle(n + 1)),
            LAST => Some(Cycle(1)),
            _ => None,
        }
    }

    // Whether a header's cycle is the next after this last one.
    pub fn is_next(self, given: Cycle) -> bool
        ensures { result ≡ is_next_of self given }
    {
        self.next() == Some(given)
    }

    // The cycle in decimal with no leading zero, left-justified in its field.
    pub fn put(self, f: &mut [u8])
        ensures { f.new ≡ left_digits self.0 f.old }
    {
        text::put_left(&mut f[..], self.0);
    }
}

// Digits only, and no leading zero where there are several. No digit at all passes here, and spells no number.
fn is_plain(d: &[u8]) -> bool
    ensures { result ≡ plain_digits d.now }
{
    text::all_in(d, Class::Digit) && (d.len() == 1 || text::byte_of(d, 0) != b'0')
}

#[tactic(auto, unfolding(crate::specs::Counters::whole_count))]
fn whole_count(d: &[u8]) -> Option<Count>
    ensures { result ≡ whole_count d.now }
{
    if !is_plain(d) {
        return None;
    }
    text::number_in(d, 1, place::COUNT_SIZE).map(Count)
}

// The record count of a trailer's field, if it holds one: spaces, and then a plain number.
#[tactic(auto, using(text::proofs::Laws::rest_is), unfolding(crate::specs::Counters::count_of))]
pub fn count_in(f: &[u8]) -> Option<Count>
    ensures { result ≡ count_of f.now }
{
    let n = text::run(f, Class::Space);
    whole_count(&f[n..])
}

impl Count {
    // Whether the count is n.
    pub fn is(self, n: usize) -> bool
        ensures { result ≡ is_count self n }
    {
        self.0 as usize == n
    }
}
