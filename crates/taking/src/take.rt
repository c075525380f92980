// The two calls of each kind of file: a check writes nothing, and an apply checks the file to its end again before it writes anything.
ghost use Rattle.std.specs.Prelude.{◌≡◌, ◌≤◌, ◌-◌};
ghost use Rattle.rules.specs.declared.Kind.TheVariants.{Data, Guide};
ghost use Rattle.rules.specs.Takes.{TakesData, TakesGuide};
ghost use Rattle.rules.specs.Checks.{Checks};
ghost use Rattle.rules.specs.Refusing.{refusal_number, refusal_place, refusal_position};

use crate::{apply, checks};
use layout::counter::Cycle;
use layout::frame::Header;
use rules::refusing::Refused;
use rules::{Kind, Taken, refusing};
use versions::Version;

// What a refused file returns.
fn refused(why: Refused, last: u32) -> Taken
    ensures { result ≡ record { refusal = refusal_number why; place = refusal_place why; position = refusal_position why; records = 0; done = 0; undone = 0; last = last } }
{
    let told = why.told();
    Taken {
        refusal: told.number,
        place: told.place,
        position: told.position,
        records: 0,
        done: 0,
        undone: 0,
        last,
    }
}

// What a file returns that was checked and is good: nothing is done, and the last cycle is as given.
fn passed(n: usize, last: u32) -> Taken
    requires { n ≤ 9999 }
    ensures { result ≡ record { refusal = 0; place = 0; position = 0; records = n; done = 0; undone = 0; last = last } }
{
    Taken {
        refusal: refusing::NONE,
        place: 0,
        position: 0,
        records: n as u32,
        done: 0,
        undone: 0,
        last,
    }
}

// What an applied file returns.
fn applied(h: Header, n: usize, done: u32) -> Taken
    requires { (n ≤ 9999) × (done ≤ n) }
    ensures { result ≡ record { refusal = 0; place = 0; position = 0; records = n; done = done; undone = n - done; last = h.cycle.0 } }
{
    let records = n as u32;
    Taken {
        refusal: refusing::NONE,
        place: 0,
        position: 0,
        records,
        done,
        undone: records - done,
        last: h.cycle.number(),
    }
}

// Checks a file of any kind. Of the answers only the length is looked at.
#[tactic(auto, using(crate::proofs::LoopLaws::few_lines), unfolding(rules::specs::Checks::foretold, rules::specs::Takes::refused_file))]
fn check(kind: Kind, register: &[u8], guide: &[u8], file: &[u8], answers: &[u8], last: u32) -> Taken
    ensures { Checks kind register.now guide.now file.now answers.now last result }
{
    let given = Cycle::given(last);
    match checks::check_file(kind, register, guide, file, answers.len(), given) {
        Err(why) => refused(why, last),
        Ok(_) => passed(checks::lines_in(kind, file), last),
    }
}

// Checks a data file of the version that the caller says: all that applying it would refuse it for.
pub fn check_data(
    version: Version,
    register: &[u8],
    guide: &[u8],
    file: &[u8],
    answers: &[u8],
    last: u32,
) -> Taken
    ensures { Checks (Data version) register.now guide.now file.now answers.now last result }
{
    check(Kind::Data(version), register, guide, file, answers, last)
}

// The same for a guide file.
pub fn check_guide(register: &[u8], guide: &[u8], file: &[u8], answers: &[u8], last: u32) -> Taken
    ensures { Checks Guide register.now guide.now file.now answers.now last result }
{
    check(Kind::Guide, register, guide, file, answers, last)
}

// Applies a data file: the guide is read, the register and the answers are written.
#[tactic(auto, using(crate::proofs::LoopLaws::few_lines, rules::proofs::GoodLaws::good_room, crate::proofs::LoopLaws::undone_is), unfolding(rules::specs::Takes::taken, rules::specs::Takes::refused_file, rules::specs::Takes::applied_file))]
pub fn apply_data(
    version: Version,
    register: &mut [u8],
    guide: &[u8],
    file: &[u8],
    answers: &mut [u8],
    last: u32,
) -> Taken
    ensures { TakesData version register.old guide.now file.now answers.old last result register.new answers.new }
{
    let kind = Kind::Data(version);
    let given = Cycle::given(last);
    match checks::check_file(kind, register, guide, file, answers.len(), given) {
        Err(why) => refused(why, last),
        Ok(h) => {
            let n = checks::lines_in(kind, file);
            let done = apply::apply_records(version, register, guide, file, answers, h, n);
            applied(h, n, done)
        }
    }
}

// Applies a guide file: the register is read, the guide and the answers are written.
#[tactic(auto, using(crate::proofs::LoopLaws::few_lines, rules::proofs::GoodLaws::good_room, crate::proofs::LoopLaws::undone_is), unfolding(rules::specs::Takes::taken, rules::specs::Takes::refused_file, rules::specs::Takes::applied_file))]
pub fn apply_guide(
    register: &[u8],
    guide: &mut [u8],
    file: &[u8],
    answers: &mut [u8],
    last: u32,
) -> Taken
    ensures { TakesGuide register.now guide.old file.now answers.old last result guide.new answers.new }
{
    let kind = Kind::Guide;
    let given = Cycle::given(last);
    match checks::check_file(kind, register, guide, file, answers.len(), given) {
        Err(why) => refused(why, last),
        Ok(h) => {
            let n = checks::lines_in(kind, file);
            let done = apply::apply_rows(register, guide, file, answers, h, n);
            applied(h, n, done)
        }
    }
}
