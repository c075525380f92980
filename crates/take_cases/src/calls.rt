// A call: its line names it and what it is lent, `apply_data last=0 version=1 register=(00*520) ..`.
use crate::{read, write};
use rules::Taken;
use std::io;
use taking::take;
use versions::Version;

// The parts that a call is lent.
#[derive(Drop)]
struct Lent<'a> {
    register: &'a mut [u8],
    guide: &'a mut [u8],
    file: &'a [u8],
    answers: &'a mut [u8],
}

// What the call of a line returns: its first word names it, and a data call's version is 1 or left out.
fn taken(line: &[u8], lent: Lent) -> Taken {
    let Lent {
        register,
        guide,
        file,
        answers,
    } = lent;
    let last = read::number(read::value(line, "last="));
    let version = match read::number(read::value(line, "version=")) {
        1 => Version::One,
        _ => Version::Two,
    };
    match read::name(line) {
        b"check_data" => take::check_data(version, register, guide, file, answers, last),
        b"check_guide" => take::check_guide(register, guide, file, answers, last),
        b"apply_data" => take::apply_data(version, register, guide, file, answers, last),
        _ => take::apply_guide(register, guide, file, answers, last),
    }
}

fn returned(rt: &impl Print, taken: Taken) -> io::Result<()> {
    let Taken {
        refusal,
        place,
        position,
        records,
        done,
        undone,
        last,
    } = taken;
    print!(rt; "refusal={refusal} place={place} position={position}")?;
    print!(rt; " n={records} done={done} undone={undone} last={last}")
}

// The call of a line: what it returned, and what each part holds then. Each part has room for the largest of stdin.
pub fn run(rt: &impl Print, line: &[u8]) -> io::Result<()> {
    let mut register = [0u8; 32768];
    let mut guide = [0u8; 8192];
    let mut file = [0u8; 8192];
    let mut answers = [0u8; 64];
    // Each part's value is looked for in the line once.
    let register_value = read::value(line, "register=");
    let guide_value = read::value(line, "guide=");
    let file_value = read::value(line, "file=");
    let answers_value = read::value(line, "answers=");
    let register = read::part(&mut register, register_value);
    let guide = read::part(&mut guide, guide_value);
    let file = read::part(&mut file, file_value);
    let answers = read::part(&mut answers, answers_value);
    let lent = Lent {
        register: &mut register[..],
        guide: &mut guide[..],
        file: &file[..],
        answers: &mut answers[..],
    };
    returned(rt, taken(line, lent))?;
    write::part(rt, "register=", register_value, register)?;
    write::part(rt, "guide=", guide_value, guide)?;
    write::part(rt, "file=", file_value, file)?;
    write::part(rt, "answers=", answers_value, answers)?;
    println!(rt)
}
