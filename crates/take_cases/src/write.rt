// What a call writes of each lent part: its bytes, or that they are the same.
use crate::read;
use std::io;

// One byte again and again: from five times on as a group.
fn run(rt: &impl Print, bytes: &[u8]) -> io::Result<()> {
    let n = bytes.len();
    match bytes {
        [byte, _, _, _, _, ..] => print!(rt; "({byte:02x}*{n})"),
        _ => {
            for byte in bytes {
                print!(rt; "{byte:02x}")?;
            }
            Ok(())
        }
    }
}

// A part that the line lends by this value under this name, and that holds these bytes then. What it held is read anew from the line's
// value, so that each part is looked at, also one that a take may not write.
pub fn part(rt: &impl Print, name: &str, value: &[u8], bytes: &[u8]) -> io::Result<()> {
    // The register is the largest part.
    let mut was = [0u8; 32768];
    print!(rt; " {name}")?;
    if *read::part(&mut was, value) == *bytes {
        return print!(rt; "same");
    }
    for same in bytes.chunk_by(|a, b| a == b) {
        run(rt, same)?;
    }
    Ok(())
}
