// A byte of input, and the end of input.
ghost use Rattle.std.specs.Prelude.{◌≡◌, true, List, ℕ, ◌+◌, ◌≤◌, ◌<◌, length, drop, get_or};
ghost use Rattle.desk_rules.specs.Hex.{bytes_in};
ghost use Rattle.desk_rules.specs.Desk.{most_typed, most_lines, silent, framed, is_readable, line_ended, typed, fed, ended};
ghost use Rattle.desk_rules.specs.Served.{bench_of, Serves, Lays};
ghost use Rattle.desk_lines.specs.Acts.{IsSameLoan, Acts};

use crate::bench::Bench;
use crate::frames::Frame;
use desk_rules::{Fed, Marks};

// So many bytes has a line of so many characters.
const MOST_BYTES: usize = desk_marks::MOST_TYPED / 2;

// The desk program has 64 slots of each kind.
const SLOTS: usize = 64;

pub const REGISTER_SIZE: usize = SLOTS * register::SLOT;

pub const GUIDE_SIZE: usize = SLOTS * guide::SLOT;

fn is_readable(line: &[u8]) -> bool
    ensures { result ≡ is_readable line.now }
{
    !line.is_empty() && line.len() <= desk_marks::MOST_TYPED && hexadecimal::is_hex(line)
}

// One more character of the line; of a line that is too long, those behind the 2051st are not kept.
fn type_byte(m: Marks, line: &mut [u8], b: u8) -> Fed
    requires { most_typed + 1 ≤ length line.old }
    ensures { (R G C o : List ℕ) → Lays (λ d. silent (typed d b)) m (bench_of R G C line.old o) result
        (bench_of R G C line.new o) }
{
    if m.typed <= desk_marks::MOST_TYPED {
        line[m.typed] = b;
        return Fed {
            marks: Marks {
                typed: m.typed + 1,
                ..m
            },
            said: 0,
        };
    }
    Fed { marks: m, said: 0 }
}

impl Bench<'_> {
    // A line that is whole bytes, as a frame.
    fn read_line(&mut self, line: &[u8]) -> usize
        requires { is_readable line.now ≡ true }
        ensures same { IsSameLoan self.old self.new }
        ensures acts { (l : List ℕ)
            → Acts (λ d. framed d (get_or (bytes_in line.now) 0 0) (drop 1 (bytes_in line.now)))
            self.old l self.new l result }
    {
        let mut bytes = [0; MOST_BYTES];
        let k = line.len() / 2;
        hexadecimal::decode(line, &mut bytes[..k]);
        self.act(Frame::of(bytes[0], &bytes[1..k]))
    }

    // The line is counted, and read.
    fn end_line(&mut self, line: &[u8]) -> usize
        requires { (most_typed + 1 ≤ length line.now) × (self.old.marks.lines < most_lines) }
        ensures same { IsSameLoan self.old self.new }
        ensures acts { Acts line_ended self.old line.now self.new line.now result }
    {
        let typed = &line[..self.marks.typed];
        self.marks = Marks {
            lines: self.marks.lines + 1,
            typed: 0,
            ..self.marks
        };
        if is_readable(typed) {
            return self.read_line(typed);
        }
        self.unread()
    }
}

// A byte of input.
pub fn feed(
    m: Marks,
    register: &mut [u8],
    guide: &mut [u8],
    collection: &mut [u8],
    line: &mut [u8],
    out: &mut [u8],
    b: u8,
) -> Fed
    ensures { Serves (λ d. fed d b) m
        (bench_of register.old guide.old collection.old line.old out.old) result
        (bench_of register.new guide.new collection.new line.new out.new) }
{
    if !desk_marks::is_ready(m, collection.len(), line.len(), out.len()) {
        return Fed { marks: m, said: 0 };
    }
    if desk_marks::has_stopped(m) {
        return Fed { marks: m, said: 0 };
    }
    if b != b'\n' {
        return type_byte(m, line, b);
    }
    let mut bench = Bench {
        marks: m,
        register,
        guide,
        collection,
        out,
    };
    let said = bench.end_line(line);
    Fed {
        marks: bench.marks,
        said,
    }
}

// The end of input: the last line may lack its newline.
pub fn finish(
    m: Marks,
    register: &mut [u8],
    guide: &mut [u8],
    collection: &mut [u8],
    line: &[u8],
    out: &mut [u8],
) -> Fed
    ensures { Serves ended m
        (bench_of register.old guide.old collection.old line.now out.old) result
        (bench_of register.new guide.new collection.new line.now out.new) }
{
    if !desk_marks::is_ready(m, collection.len(), line.len(), out.len()) {
        return Fed { marks: m, said: 0 };
    }
    if desk_marks::has_stopped(m) {
        return Fed { marks: m, said: 0 };
    }
    if m.typed == 0 {
        return Fed { marks: m, said: 0 };
    }
    let mut bench = Bench {
        marks: m,
        register,
        guide,
        collection,
        out,
    };
    let said = bench.end_line(line);
    Fed {
        marks: bench.marks,
        said,
    }
}
