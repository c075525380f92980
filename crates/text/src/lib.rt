// Parts of a line of bytes: classes of bytes, blank, runs of a class, the number that digits spell, whether two parts are
// the same, and what is written into a part. Each loop is written and proved once, and every other crate calls it.
#![tactic(auto)]

ghost use Rattle.std.specs.Prelude.{◌≡◌, [], ◌∷◌, ◌+◌, ◌≤◌, ◌<◌, ◌^◌, length, get_or, replicate};
ghost use Rattle.text.specs.Text.{in_class, all_in, all_equal, blank, run_of, runs_of, digit_of, value_of, spelled};
ghost use Rattle.text.specs.Text.{same_bytes, member_of, all_of, trim_of, part, there, eight_same, put_at, digits, width, among_spaces, left_digits, right_digits};

// The classes of bytes that the field rules name; and every byte but `|`, which parts a tagged text.
#[derive(Clone, Copy)]
pub enum Class {
    Printable,
    Space,
    Digit,
    Capital,
    CapitalOrDigit,
    Unbarred,
}

pub fn in_class(k: Class, b: u8) -> bool
    ensures { result ≡ in_class k b }
{
    match k {
        Class::Printable => b.is_ascii_graphic() | (b == b' '),
        Class::Space => b == b' ',
        Class::Digit => b.is_ascii_digit(),
        Class::Capital => b.is_ascii_uppercase(),
        Class::CapitalOrDigit => b.is_ascii_digit() | b.is_ascii_uppercase(),
        Class::Unbarred => b != b'|',
    }
}

// Whether every byte is of the class. It does not stop at the first that is not: nearly all fields are good, and a loop
// with one way out is done many bytes at a time.
pub fn all_in(f: &[u8], k: Class) -> bool
    ensures { result ≡ all_in k f.now }
{
    let mut all = true;
    for c in f {
        all &= in_class(k, *c);
    }
    all
}

// Whether every byte is b; one way out, as in all_in.
pub fn all_equal(f: &[u8], b: u8) -> bool
    ensures { result ≡ all_equal b f.now }
{
    let mut all = true;
    for c in f {
        all &= *c == b;
    }
    all
}

// Whether every byte is a space. Of 4 to 15 bytes, the first four or eight and the last four or eight: two looks of a fixed length
// are quicker than a loop.
pub fn is_blank(f: &[u8]) -> bool
    ensures { result ≡ blank f.now }
{
    match f.len() {
        n @ 4..=7 => all_in(&f[..4], Class::Space) & all_in(&f[n - 4..], Class::Space),
        n @ 8..=15 => all_in(&f[..8], Class::Space) & all_in(&f[n - 8..], Class::Space),
        _ => all_in(f, Class::Space),
    }
}

// A byte as a number that has room for more.
pub fn wide(b: u8) -> u32
    ensures { (result ≡ b) × (result ≤ 255) }
{
    u32::from(b)
}

// Four spaces, as one word.
const FOUR_SPACES: u32 = 0x20202020;

// Whether four bytes are spaces, compared as one word.
pub fn are_spaces(a: u8, b: u8, c: u8, d: u8) -> bool
    ensures { result ≡ blank (a ∷ (b ∷ (c ∷ (d ∷ [])))) }
{
    u32::from_le_bytes([a, b, c, d]) == FOUR_SPACES
}

// How many bytes of the class it begins with.
pub fn run(f: &[u8], k: Class) -> usize
    ensures { (result ≡ run_of k f.now) × (result ≤ length f.now) }
{
    f.iter().position(|b| !in_class(k, *b)).unwrap_or(f.len())
}

// Whether there are only spaces, byte by byte: behind a run there are few, too few for a loop with one way out.
fn is_rest_blank(f: &[u8]) -> bool
    ensures { result ≡ blank f.now }
{
    run(f, Class::Space) == f.len()
}

// From low to high bytes of the class, and then only spaces.
#[tactic(auto, unfolding(crate::specs::Text::runs_of))]
pub fn runs(f: &[u8], k: Class, low: usize, high: usize) -> bool
    ensures { result ≡ runs_of k low high f.now }
{
    let n = run(f, k);
    (low..=high).contains(&n) && is_rest_blank(&f[n..])
}

fn digit(b: u8) -> u32
    ensures { (result ≡ digit_of b) × (result < 10) }
{
    if b.is_ascii_digit() {
        return u32::from(b - b'0');
    }
    0
}

fn value(f: &[u8]) -> u32
    requires { length f.now ≤ 9 }
    ensures { (result ≡ value_of f.now) × (result < 10 ^ length f.now) }
{
    let mut n = 0;
    for b in f {
        n = n * 10 + digit(*b);
    }
    n
}

// No field has more digits, and so many fit 32 bits.
const MOST_DIGITS: usize = 9;

// The number that from low to high digits spell, with only spaces behind them; none where more than nine are asked for.
#[tactic(auto, unfolding(crate::specs::Text::spelled, crate::specs::Text::runs_of))]
pub fn number_in(f: &[u8], low: usize, high: usize) -> Option<u32>
    ensures { result ≡ spelled low high f.now }
{
    if MOST_DIGITS < high {
        return None;
    }
    let n = run(f, Class::Digit);
    if (low..=high).contains(&n) && is_rest_blank(&f[n..]) {
        return Some(value(&f[..n]));
    }
    None
}

// Whether the eight bytes from i on, which are there, are the same in both. Their number is known, so they are compared as one word.
fn are_words_same(a: &[u8], b: &[u8], i: usize) -> bool
    requires { (i + 8 ≤ length a.now) × (i + 8 ≤ length b.now) }
    ensures { result ≡ same_bytes (part i 8 a.now) (part i 8 b.now) }
{
    match (a[i..].first_chunk::<8>(), b[i..].first_chunk::<8>()) {
        (Some(x), Some(y)) => x == y,
        _ => false,
    }
}

// Whether two parts are the same bytes: by words, and byte by byte behind them. The library's `==` at slices takes twice as long at
// the ten bytes of a number.
pub fn same(a: &[u8], b: &[u8]) -> bool
    ensures { result ≡ same_bytes a.now b.now }
{
    let n = a.len();
    if b.len() != n {
        return false;
    }
    let mut i = 0;
    while 8 <= n - i {
        if !are_words_same(a, b, i) {
            return false;
        }
        i += 8;
    }
    for j in i..n {
        if a[j] != b[j] {
            return false;
        }
    }
    true
}

// Whether a byte is one of the set.
pub fn member(set: &[u8], b: u8) -> bool
    ensures { result ≡ member_of b set.now }
{
    set.contains(&b)
}

// Whether every byte is one of the set.
pub fn all_of(f: &[u8], set: &[u8]) -> bool
    ensures { result ≡ all_of set.now f.now }
{
    f.iter().all(|b| member(set, *b))
}

// Without the spaces at its end.
pub fn trimmed(f: &[u8]) -> &[u8]
    ensures { result.now ≡ trim_of f.now }
{
    let mut left = f;
    while let Some((last, before)) = left.split_last() {
        if *last != b' ' {
            return left;
        }
        left = before;
    }
    left
}

// The n bytes from i, or as many of them as there are.
pub fn part_of(s: &[u8], i: usize, n: usize) -> &[u8]
    ensures { result.now ≡ part i n s.now }
{
    let rest = s.get(i..).unwrap_or(&[]);
    rest.get(..n).unwrap_or(rest)
}

// Whether the n bytes from i on are there.
pub fn is_there(s: &[u8], i: usize, n: usize) -> bool
    ensures { result ≡ there i n s.now }
{
    i <= s.len() && n <= s.len() - i
}

// Whether the eight bytes from i on are there, and the same in both: one look at a word, so short that a walk takes it into its loop.
#[tactic(auto, unfolding(crate::specs::Text::eight_same))]
pub fn are_eight_same(a: &[u8], b: &[u8], i: usize) -> bool
    ensures { result ≡ eight_same i a.now b.now }
{
    is_there(a, i, 8) && is_there(b, i, 8) && are_words_same(a, b, i)
}

// The byte at i, or 0 where there is none.
pub fn byte_of(s: &[u8], i: usize) -> u8
    ensures { result ≡ get_or s.now i 0 }
{
    s.get(i).copied().unwrap_or(0)
}

// The bytes of b over those of s from i on, where they fit.
#[tactic(auto, unfolding(crate::specs::Text::put_at))]
pub fn put(s: &mut [u8], i: usize, b: &[u8])
    ensures { s.new ≡ put_at i b.now s.old }
{
    if is_there(s, i, b.len()) {
        let e = i + b.len();
        s[i..e].copy_from_slice(b);
    }
}

// Every byte becomes b.
pub fn fill(s: &mut [u8], b: u8)
    ensures { s.new ≡ replicate (length s.old) b }
{
    s.fill(b);
}

// The last digits of n, as many as there are bytes; by index, as of `iter_mut().rev()` no byte is known afterwards.
fn put_digits(s: &mut [u8], n: u32)
    ensures { s.new ≡ digits (length s.old) n }
{
    let mut m = n;
    for i in (0..s.len()).rev() {
        s[i] = b'0' + (m % 10) as u8;
        m /= 10;
    }
}

// How many digits n has, without a leading zero; zero has one.
#[tactic(auto, unfolding(crate::specs::Text::width))]
fn width_of(n: u32) -> usize
    ensures { (result ≡ width n) × (result ≤ 10) }
{
    match n.checked_ilog10() {
        Some(most) => most as usize + 1,
        None => 1,
    }
}

// Spaces, but for the last w digits of n from a on.
fn put_among_spaces(s: &mut [u8], a: usize, w: usize, n: u32)
    requires { a + w ≤ length s.old }
    ensures { s.new ≡ among_spaces a w n (length s.old) }
{
    fill(s, b' ');
    put_digits(&mut s[a..a + w], n);
}

// n in decimal with no leading zero, and spaces behind; unchanged where it does not fit.
pub fn put_left(s: &mut [u8], n: u32)
    ensures { s.new ≡ left_digits n s.old }
{
    let w = width_of(n);
    if w <= s.len() {
        put_among_spaces(s, 0, w, n);
    }
}

// Spaces, and then n in decimal with no leading zero; unchanged where it does not fit.
pub fn put_right(s: &mut [u8], n: u32)
    ensures { s.new ≡ right_digits n s.old }
{
    let w = width_of(n);
    if w <= s.len() {
        let a = s.len() - w;
        put_among_spaces(s, a, w, n);
    }
}

// The number that two digits spell, as number_in reads a field of two bytes. Every date is three of them.
#[tactic(auto, unfolding(crate::specs::Text::spelled, crate::specs::Text::runs_of))]
pub fn two_digits(a: u8, b: u8) -> Option<u32>
    ensures { result ≡ spelled 2 2 (a ∷ (b ∷ [])) }
{
    if a.is_ascii_digit() && b.is_ascii_digit() {
        return Some(digit(a) * 10 + digit(b));
    }
    None
}
