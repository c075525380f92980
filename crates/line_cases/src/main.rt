// Cases of 01's lines, on both sides of each rule: layouts and field rules, dates, cycles and counts, what is read from a line and
// what is written into one. Each writes one line, and the file stdout says what it must be.
#![tactic(auto)]

mod cases;
mod counters;
mod dates;
mod frames;
mod made;
mod out;
mod readers;
mod records;
mod rows;

use std::io;

fn main(rt: HostRuntime) -> io::Result<()> {
    records::run(&rt)?;
    rows::run(&rt)?;
    frames::run(&rt)?;
    dates::run(&rt)?;
    counters::run(&rt)?;
    readers::run(&rt)
}
