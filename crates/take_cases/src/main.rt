// Checks and applies of files. Each line of standard input is a call, and the line that is written for it says what it returned and
// what each lent part holds then; the file stdout says what it must be. Both files were made from the description alone, and not by this
// program. They have each refusal of the four calls and each answer of both kinds, a fault in each field, each code at each state of a
// slot, and files of several lines; some lines are of Version 1.
#![tactic(auto)]

ghost use Rattle.std.specs.Prelude.{◌≤◌, length, IfOk};

mod calls;
mod read;
mod write;

use std::io;
use std::io::Read;

// Reads to the end of input, or until the buffer is full; how many bytes came. Each read has all the room that is left: of a message that
// is longer than a read, what is behind is lost.
fn read_full(rt: &impl Input, input: &mut [u8]) -> io::Result<usize>
    ensures { IfOk result (λ n. n ≤ length input.new) }
{
    let mut reader = rt.reader();
    let mut n = 0;
    while n < input.len() {
        let got = reader.read(&mut input[n..])?;
        if got == 0 {
            break;
        }
        n += got;
    }
    Ok(n)
}

fn main(rt: HostRuntime) -> io::Result<()> {
    // More than the file stdin has; of a longer input no more than this is read.
    let mut input = [0u8; 393216];
    let n = read_full(&rt, &mut input)?;
    // Behind the last line's end there is no other line.
    for line in input[..n].split_inclusive(|b| *b == b'\n') {
        calls::run(&rt, line.strip_suffix(b"\n").unwrap_or(line))?;
    }
    Ok(())
}
