// Cases of cycles and counts: which cycle follows, and how a number is written.
use crate::out;
use layout::counter::Cycle;
use std::io;

// The cycle after this one, or that there is none.
fn next(last: u32) -> out::Outcome {
    out::number_or(Cycle::given(last).next().map(Cycle::number), "none")
}

fn cycles(rt: &impl Print) -> io::Result<()> {
    println!(rt; "cycle after none: {}", next(0))?;
    for last in [0, 1, 999998, 999999, 1000000, u32::MAX] {
        println!(rt; "cycle after {last}: {}", next(last))?;
    }
    Ok(())
}

fn next_cycles(rt: &impl Print) -> io::Result<()> {
    for (given, last) in [
        (1, 0),
        (0, 0),
        (2, 0),
        (2, 1),
        (1, 1),
        (999999, 999998),
        (1, 999999),
        (1000000, 999999),
        (1, 1000000),
        (1000001, 1000000),
        (0, u32::MAX),
        (1, u32::MAX),
    ] {
        let follows = Cycle::given(last).is_next(Cycle::given(given));
        println!(rt;
            "cycle {given} is next after {last}: {}",
            out::answer(follows)
        )?;
    }
    Ok(())
}

// Cycles in their field: no leading zero, spaces behind; dots stay where one does not fit.
fn written_cycles(rt: &impl Print) -> io::Result<()> {
    for n in [1, 83, 999999, 1000000] {
        let mut f = [b'.'; 6];
        Cycle::given(n).put(&mut f);
        print!(rt; "cycle {n} written")?;
        out::ends_in_bytes(rt, &f)?;
    }
    Ok(())
}

// Counts in their field: spaces before them.
fn written_counts(rt: &impl Print) -> io::Result<()> {
    for n in [0, 7, 9999, 999999999, 1000000000] {
        let mut f = [b'.'; 9];
        text::put_right(&mut f, n);
        print!(rt; "count {n} written")?;
        out::ends_in_bytes(rt, &f)?;
    }
    Ok(())
}

pub fn run(rt: &impl Print) -> io::Result<()> {
    cycles(rt)?;
    next_cycles(rt)?;
    written_cycles(rt)?;
    written_counts(rt)
}
