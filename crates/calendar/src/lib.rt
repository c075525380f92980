// The days of the years 1970 to 2069: named by six bytes MMDDYY, counted from 010170 as 0, and kept in four bytes of a slot.
// Nothing outside this crate knows the formula.
#![tactic(auto)]

ghost use Rattle.std.specs.Prelude.{◌≡◌, true, ◌≤◌, leb};
ghost use Rattle.calendar.specs.Calendar.{leap, month_days, days_before, years_of, day_number, day_from, day_of, no_later};
ghost use Rattle.calendar.specs.Calendar.{stored_day, day_bytes, is_before, is_past, on_calendar};
ghost use Rattle.calendar.specs.Former.{day_by, formerly, anew};

// A day number. It is made only where a date field or the four bytes of a slot are read, or a stored day is counted anew.
#[derive(Clone, Copy, PartialEq, Eq, PartialOrd, Ord)]
pub struct Day(u32);

// A day number in a slot, the high byte first.
pub type DayBytes = [u8; 4];

// How dates are read: as now, or as they were before, when each year was 20YY and 010100 was day 0.
#[derive(Clone, Copy)]
pub enum Reading {
    Present,
    Former,
}

// Every month has so many days.
const SHORTEST: u32 = 28;

// 123169.
const LAST: u32 = 36524;

// The first year, and how many years it lies before 2000.
const FIRST_YEAR: u32 = 70;

const BEFORE_2000: u32 = 100 - FIRST_YEAR;

// 010100, which was day 0 before.
const DAY_2000: u32 = 10957;

// What 123169 was before: the last of the days counted then that has a reading now. The next was 010170, now the first day.
const FORMER_LAST: u32 = 25567;

const FORMER_FIRST: u32 = FORMER_LAST + 1;

// MMDDYY.
const DATE_SIZE: usize = 6;

fn is_leap(y: u32) -> bool
    ensures { result ≡ leap y }
{
    y % 4 == 0
}

// The days of the year before month m: 367 over the twelve months as if February had 30, of which it is one or two short. Month 13 is the
// end of the year, so a type of the months 1 to 12 is not what is asked for here, and month, day and year stay numbers.
fn days_before(m: u32, y: u32) -> u32
    requires { (1 ≤ m) × (m ≤ 13) }
    ensures { (result ≡ days_before m y) × (result ≤ 366) }
{
    let whole = (367 * m - 362) / 12;
    if m <= 2 {
        return whole;
    }
    if is_leap(y) {
        return whole - 1;
    }
    whole - 2
}

// A month goes to the first of the next: no table of lengths takes up constant space.
fn month_days(m: u32, y: u32) -> u32
    requires { (1 ≤ m) × (m ≤ 12) × (y ≤ 99) }
    ensures { (result ≡ month_days m y) × (result ≤ 31) }
{
    days_before(m + 1, y) - days_before(m, y)
}

// Whether the month has such a day: its length is worked out only for a day that not every month has.
fn has_day(m: u32, d: u32, y: u32) -> bool
    requires { (1 ≤ m) × (m ≤ 12) × (y ≤ 99) }
    ensures { result ≡ leb d (month_days m y) }
{
    d <= SHORTEST || d <= month_days(m, y)
}

// The years since 1970.
fn years_of(y: u32) -> u32
    requires { y ≤ 99 }
    ensures { (result ≡ years_of y) × (result ≤ 99) }
{
    if FIRST_YEAR <= y {
        return y - FIRST_YEAR;
    }
    y + BEFORE_2000
}

fn day_number(m: u32, d: u32, y: u32) -> u32
    requires { (1 ≤ m) × (m ≤ 12) × (1 ≤ d) × (d ≤ 31) × (y ≤ 99) }
    ensures { (result ≡ day_number m d y) × (result ≤ 36524) }
{
    let z = years_of(y);
    365 * z + (z + 1) / 4 + days_before(m, y) + d - 1
}

fn day_from(m: u32, d: u32, y: u32) -> Option<Day>
    ensures { (result ≡ day_from m d y) × (no_later result ≡ true) }
{
    if 99 < y || !(1..=12).contains(&m) || d < 1 || !has_day(m, d, y) {
        return None;
    }
    Some(Day(day_number(m, d, y)))
}

// The day that six bytes MMDDYY name; it is at most 36524.
pub fn day_in(f: &[u8]) -> Option<Day>
    ensures { (result ≡ day_of f.now) × (no_later result ≡ true) }
{
    if f.len() != DATE_SIZE {
        return None;
    }
    let m = text::two_digits(f[0], f[1])?;
    let d = text::two_digits(f[2], f[3])?;
    let y = text::two_digits(f[4], f[5])?;
    day_from(m, d, y)
}

// The number that a day had before.
fn former_number(n: u32) -> u32
    requires { n ≤ 36524 }
    ensures { (result ≡ formerly n) × (result ≤ 36524) }
{
    if DAY_2000 <= n {
        return n - DAY_2000;
    }
    n + FORMER_FIRST
}

// The day that six bytes name by a reading: they are read in one way, and the number that the day had before is told from it.
pub fn day_by(reading: Reading, f: &[u8]) -> Option<Day>
    ensures { (result ≡ day_by reading f.now) × (no_later result ≡ true) }
{
    let day = day_in(f)?;
    match reading {
        Reading::Present => Some(day),
        Reading::Former => Some(Day(former_number(day.0))),
    }
}

impl Day {
    // What a day that was stored before is now, if it has a reading.
    pub fn anew(self) -> Option<Day>
        ensures { result ≡ anew self }
    {
        if self.0 <= FORMER_LAST {
            return Some(Day(self.0 + DAY_2000));
        }
        None
    }

    // The day of a slot, from its four bytes, the high byte first.
    pub fn stored(a: u8, b: u8, c: u8, d: u8) -> Day
        ensures { result ≡ stored_day a b c d }
    {
        Day(u32::from_be_bytes([a, b, c, d]))
    }

    // The four bytes of a day in a slot.
    pub fn bytes(self) -> DayBytes
        ensures { result ≡ day_bytes self }
    {
        self.0.to_be_bytes()
    }

    pub fn is_before(self, other: Day) -> bool
        ensures { result ≡ is_before self other }
    {
        self < other
    }

    // Whether so many days have passed since this one on that day.
    pub fn is_past(self, days: u32, today: Day) -> bool
        ensures { result ≡ is_past self days today }
    {
        days <= today.0 && self.0 <= today.0 - days
    }

    // Whether six bytes can name it. A slot's four bytes can hold more.
    pub fn is_on_calendar(self) -> bool
        ensures { result ≡ on_calendar self }
    {
        self.0 <= LAST
    }
}
