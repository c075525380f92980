// The C face of checks and applies, the load file, the conversion and the tagged record: nothing but calls. A name with _v1 means Version 1
// of the data record, one without means Version 2.
#![tactic(auto)]

ghost use Rattle.versions.specs.declared.Version.TheVariants.{One, Two};
ghost use Rattle.rules.specs.declared.Kind.TheVariants.{Data, Guide};
ghost use Rattle.rules.specs.Takes.{TakesData, TakesGuide};
ghost use Rattle.rules.specs.Checks.{Checks};
ghost use Rattle.rules.specs.Loads.{WritesLoad};
ghost use Rattle.rules.specs.Converts.{Converts};
ghost use Rattle.tag_rules.specs.Reading.{ReadsText};
ghost use Rattle.tag_rules.specs.Writing.{WritesText};

use rules::{Converted, Loaded, Taken};
use tag_rules::Tagged;
use versions::Version;

#[unsafe(no_mangle)]
pub extern "C" fn hakkiyolu_check_data(
    register: &[u8],
    guide: &[u8],
    file: &[u8],
    answers: &[u8],
    last: u32,
) -> Taken
    ensures { Checks (Data Two) register.now guide.now file.now answers.now last result }
{
    taking::take::check_data(Version::Two, register, guide, file, answers, last)
}

#[unsafe(no_mangle)]
pub extern "C" fn hakkiyolu_apply_data(
    register: &mut [u8],
    guide: &[u8],
    file: &[u8],
    answers: &mut [u8],
    last: u32,
) -> Taken
    ensures { TakesData Two register.old guide.now file.now answers.old last result register.new answers.new }
{
    taking::take::apply_data(
        Version::Two,
        &mut register[..],
        guide,
        file,
        &mut answers[..],
        last,
    )
}

#[unsafe(no_mangle)]
pub extern "C" fn hakkiyolu_check_data_v1(
    register: &[u8],
    guide: &[u8],
    file: &[u8],
    answers: &[u8],
    last: u32,
) -> Taken
    ensures { Checks (Data One) register.now guide.now file.now answers.now last result }
{
    taking::take::check_data(Version::One, register, guide, file, answers, last)
}

#[unsafe(no_mangle)]
pub extern "C" fn hakkiyolu_apply_data_v1(
    register: &mut [u8],
    guide: &[u8],
    file: &[u8],
    answers: &mut [u8],
    last: u32,
) -> Taken
    ensures { TakesData One register.old guide.now file.now answers.old last result register.new answers.new }
{
    taking::take::apply_data(
        Version::One,
        &mut register[..],
        guide,
        file,
        &mut answers[..],
        last,
    )
}

#[unsafe(no_mangle)]
pub extern "C" fn hakkiyolu_check_guide(
    register: &[u8],
    guide: &[u8],
    file: &[u8],
    answers: &[u8],
    last: u32,
) -> Taken
    ensures { Checks Guide register.now guide.now file.now answers.now last result }
{
    taking::take::check_guide(register, guide, file, answers, last)
}

#[unsafe(no_mangle)]
pub extern "C" fn hakkiyolu_apply_guide(
    register: &[u8],
    guide: &mut [u8],
    file: &[u8],
    answers: &mut [u8],
    last: u32,
) -> Taken
    ensures { TakesGuide register.now guide.old file.now answers.old last result guide.new answers.new }
{
    taking::take::apply_guide(register, &mut guide[..], file, &mut answers[..], last)
}

#[unsafe(no_mangle)]
pub extern "C" fn hakkiyolu_write_load(
    register: &[u8],
    date: &[u8],
    name: &[u8],
    cycle: u32,
    out: &mut [u8],
) -> Loaded
    ensures { WritesLoad Two register.now date.now name.now cycle out.old result out.new }
{
    loading::write_load(Version::Two, register, date, name, cycle, &mut out[..])
}

#[unsafe(no_mangle)]
pub extern "C" fn hakkiyolu_write_load_v1(
    register: &[u8],
    date: &[u8],
    name: &[u8],
    cycle: u32,
    out: &mut [u8],
) -> Loaded
    ensures { WritesLoad One register.now date.now name.now cycle out.old result out.new }
{
    loading::write_load(Version::One, register, date, name, cycle, &mut out[..])
}

#[unsafe(no_mangle)]
pub extern "C" fn hakkiyolu_convert_register(register: &mut [u8]) -> Converted
    ensures { Converts register.old result register.new }
{
    converting::convert(&mut register[..])
}

#[unsafe(no_mangle)]
pub extern "C" fn hakkiyolu_read_tagged(text: &[u8], rec: &mut [u8]) -> Tagged
    ensures { ReadsText text.now rec.old result rec.new }
{
    tagged::read::read(text, &mut rec[..])
}

#[unsafe(no_mangle)]
pub extern "C" fn hakkiyolu_write_tagged(rec: &[u8], text: &mut [u8]) -> Tagged
    ensures { WritesText rec.now text.old result text.new }
{
    tagged::write::write(rec, &mut text[..])
}
