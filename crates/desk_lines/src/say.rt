// What the desk writes: a frame a line, at the start of the output. Each answers how many bytes it wrote.
ghost use Rattle.std.specs.Prelude.{◌+◌, ◌*◌, ◌≤◌, length};
ghost use Rattle.desk_rules.specs.Hex.{line_of};
ghost use Rattle.desk_rules.specs.Desk.{most_answers, unread_said, answers_said, counts_said, refusal_said, take_said, look_said};
ghost use Rattle.desk_rules.specs.Served.{Writes, most_said};

use rules::{Seen, Taken};

// The codes of the frames that the desk writes. Numbers, and no enum: each is written in one place and never told from another.
const ANSWER: u8 = 0xa0;

const COUNTS: u8 = 0xa1;

const REFUSAL: u8 = 0xa2;

const SEEN: u8 = 0xa3;

const UNREAD: u8 = 0xa4;

// The state that is shown where no number was given.
const NO_STATE: u8 = 0xff;

// How long the line of an answer is.
const ANSWER_LINE: usize = 9;

// One frame.
fn line(out: &mut [u8], frame: &[u8]) -> usize
    requires { 2 * length frame.now + 1 ≤ length out.old }
    ensures { Writes (line_of frame.now) out.old result out.new }
{
    let n = 2 * frame.len() + 1;
    hexadecimal::encode(frame, &mut out[..n]);
    n
}

// A line that can't be read or collected, by its number.
pub fn unread(out: &mut [u8], n: u32) -> usize
    requires { most_said ≤ length out.old }
    ensures { Writes (unread_said n) out.old result out.new }
{
    let frame = [UNREAD, hexadecimal::high(n), hexadecimal::low(n)];
    line(out, &frame)
}

// The answers to the first n records.
fn answers(out: &mut [u8], given: &[u8], n: usize) -> usize
    requires { ((n ≤ most_answers) × (n ≤ length given.now)) × (9 * n ≤ length out.old) }
    ensures { Writes (answers_said given.now n) out.old result out.new }
{
    for (i, answer) in given[..n].iter().enumerate() {
        let place = (i + 1) as u32;
        let frame = [
            ANSWER,
            hexadecimal::high(place),
            hexadecimal::low(place),
            *answer,
        ];
        let at = ANSWER_LINE * i;
        hexadecimal::encode(&frame, &mut out[at..at + ANSWER_LINE]);
    }
    ANSWER_LINE * n
}

fn counts(out: &mut [u8], t: Taken) -> usize
    requires { 11 ≤ length out.old }
    ensures { Writes (counts_said t) out.old result out.new }
{
    let frame = [
        COUNTS,
        hexadecimal::high(t.done),
        hexadecimal::low(t.done),
        hexadecimal::high(t.undone),
        hexadecimal::low(t.undone),
    ];
    line(out, &frame)
}

fn refused(out: &mut [u8], t: Taken) -> usize
    requires { (t.refusal ≤ 255) × (most_said ≤ length out.old) }
    ensures { Writes (refusal_said t) out.old result out.new }
{
    let frame = [
        REFUSAL,
        hexadecimal::low(t.refusal),
        hexadecimal::high(t.place),
        hexadecimal::low(t.place),
        hexadecimal::high(t.position),
        hexadecimal::low(t.position),
    ];
    line(out, &frame)
}

// What came of a take.
pub fn taken(out: &mut [u8], t: Taken, given: &[u8]) -> usize
    requires { ((t.refusal ≤ 255) × (t.records ≤ most_answers)) × ((t.records ≤ length given.now) × (most_said ≤ length out.old)) }
    ensures { Writes (take_said t given.now) out.old result out.new }
{
    if t.refusal != 0 {
        return refused(out, t);
    }
    let n = t.records as usize;
    let at = answers(out, given, n);
    at + counts(&mut out[at..], t)
}

// What a lookup shows.
pub fn seen(out: &mut [u8], s: Seen) -> usize
    requires { (s.state ≤ 255) × (most_said ≤ length out.old) }
    ensures { Writes (look_said s) out.old result out.new }
{
    if s.refusal != 0 {
        return line(out, &[SEEN, NO_STATE, 0, 0]);
    }
    let frame = [
        SEEN,
        hexadecimal::low(s.state),
        hexadecimal::high(s.looked),
        hexadecimal::low(s.looked),
    ];
    line(out, &frame)
}
