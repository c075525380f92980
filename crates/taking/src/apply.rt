// The lines of a checked file, applied one after the other to what the earlier ones left.
ghost use Rattle.std.specs.Prelude.{ℕ, List, ◌≡◌, ◌≤◌, ◌<◌, length, drop, ◌++◌};
ghost use Rattle.taking.specs.Steps.{Stepped};
ghost use Rattle.rules.specs.declared.Kind.TheVariants.{Data, Guide};
ghost use Rattle.versions.specs.declared.Version.TheVariants.{One};
ghost use Rattle.rules.specs.Takes.{line_applied, after, answers_to, zeros_in};

use crate::checks;
use layout::frame::Header;
use rules::Kind;
use versions::Version;

// A record of Version 1, widened into the only copy that is made of it. Never inlined: the frame of an apply would have that copy, for
// files of Version 2 too.
#[inline(never)]
#[tactic(auto, unfolding(rules::specs::Takes::line_applied))]
fn apply_narrow(register: &mut [u8], guide: &[u8], h: Header, line: &[u8]) -> u8
    ensures { (result ≡ (line_applied (Data One) h line.now (record { register = register.old; guide = guide.now })).answer)
        × (register.new ≡ (line_applied (Data One) h line.now (record { register = register.old; guide = guide.now })).stores.register) }
{
    let wide = versions::widened(line);
    data_step::apply_record(register, guide, h, &wide)
}

// A record, applied as one of Version 2: a record of Version 1 is widened first.
#[tactic(auto, unfolding(rules::specs::Takes::line_applied))]
fn apply_line(version: Version, register: &mut [u8], guide: &[u8], h: Header, line: &[u8]) -> u8
    ensures { (result ≡ (line_applied (Data version) h line.now (record { register = register.old; guide = guide.now })).answer)
        × (register.new ≡ (line_applied (Data version) h line.now (record { register = register.old; guide = guide.now })).stores.register) }
{
    match version {
        Version::One => apply_narrow(register, guide, h, line),
        Version::Two => data_step::apply_record(register, guide, h, line),
    }
}

// Answer byte i is what `step` answers at line i; how many answers are 0.
fn answer_lines<F: FnMut(usize) -> u8>(answers: &mut [u8], n: usize, step: &mut F) -> u32
    requires callable { (f : F) (i : ℕ) → i < n → F.pre f i }
    requires bounds { (n ≤ 9999) × (n ≤ length answers.old) }
    ensures { (given : List ℕ) × (Stepped F.step step.old n given step.new × ((result ≤ n) × ((result ≡ zeros_in given) × (answers.new ≡ given ++ drop n answers.old)))) }
{
    let mut done: u32 = 0;
    for i in 0..n {
        let answer = step(i);
        answers[i] = answer; // a line that is turned away changes this byte alone
        done += u32::from(answer == 0);
    }
    done
}

// Answer byte i is written for record i; how many answers are 0.
pub fn apply_records(
    version: Version,
    register: &mut [u8],
    guide: &[u8],
    file: &[u8],
    answers: &mut [u8],
    h: Header,
    n: usize,
) -> u32
    requires { (n ≤ 9999) × (n ≤ length answers.old) }
    ensures { (result ≤ n) × ((result ≡ zeros_in (answers_to (Data version) h file.now (record { register = register.old; guide = guide.now }) n))
        × ((register.new ≡ (after (Data version) h file.now (record { register = register.old; guide = guide.now }) n).register)
        × (answers.new ≡ answers_to (Data version) h file.now (record { register = register.old; guide = guide.now }) n ++ drop n answers.old))) }
{
    let kind = Kind::Data(version);
    let mut step = |i| apply_line(version, register, guide, h, checks::line_at(kind, file, i));
    answer_lines(answers, n, &mut step)
}

// The same for the rows of a guide file.
pub fn apply_rows(
    register: &[u8],
    guide: &mut [u8],
    file: &[u8],
    answers: &mut [u8],
    h: Header,
    n: usize,
) -> u32
    requires { (n ≤ 9999) × (n ≤ length answers.old) }
    ensures { (result ≤ n) × ((result ≡ zeros_in (answers_to Guide h file.now (record { register = register.now; guide = guide.old }) n))
        × ((guide.new ≡ (after Guide h file.now (record { register = register.now; guide = guide.old }) n).guide)
        × (answers.new ≡ answers_to Guide h file.now (record { register = register.now; guide = guide.old }) n ++ drop n answers.old))) }
{
    let mut step = |i| row_step::apply_row(
        register,
        guide,
        h,
        checks::line_at(Kind::Guide, file, i),
    );
    answer_lines(answers, n, &mut step)
}
