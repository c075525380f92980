// The desk program: lines of hexadecimal from standard input, lines of hexadecimal to standard output. It only reads, calls and
// writes: what a byte of input does is `desk_lines`.
#![tactic(auto)]

ghost use Rattle.desk_rules.specs.Served.{bench_of};
ghost use Rattle.desk.specs.Standing.{Stands};

use desk_lines::desk;
use desk_rules::Marks;
use std::io;
use std::io::Read;

// The marks, and all that is lent.
#[derive(Drop)]
struct Desk {
    marks: Marks,
    register: [u8; desk::REGISTER_SIZE],
    guide: [u8; desk::GUIDE_SIZE],
    collection: [u8; desk_marks::COLLECTION_SIZE],
    line: [u8; desk_marks::LINE_SIZE],
    out: [u8; desk_marks::OUT_SIZE],
}

impl Desk {
    // Writes what was said.
    fn write(&self, rt: &impl Print, said: usize) -> io::Result<()> {
        rt.write_all(text::part_of(&self.out, 0, said))
    }

    // Feeds bytes one by one. What was said is written before the next byte is fed. Behind a write that fails nothing more is written,
    // but each byte is fed.
    fn feed_all(&mut self, rt: &impl Print, input: &[u8]) -> io::Result<()>
        ensures { Stands self.old.marks
            (bench_of self.old.register self.old.guide self.old.collection self.old.line self.old.out)
            input.now self.new.marks
            (bench_of self.new.register self.new.guide self.new.collection self.new.line self.new.out) }
    {
        let mut written = Ok(());
        for byte in input {
            let fed = desk::feed(
                self.marks,
                &mut self.register,
                &mut self.guide,
                &mut self.collection,
                &mut self.line,
                &mut self.out,
                *byte,
            );
            self.marks = fed.marks;
            if (0 < fed.said) & written.is_ok() {
                written = self.write(rt, fed.said);
            }
        }
        written
    }

    // Reads once, and feeds what came. Whether there is more to read: after the last line that is answered, no more is read.
    fn feed_some(&mut self, rt: &impl Print, source: &mut impl Read) -> io::Result<bool> {
        // As many bytes as a pipe holds.
        let mut input = [0; 65536];
        let n = source.read(&mut input)?;
        self.feed_all(rt, &input[..n])?;
        Ok((0 < n) & !desk_marks::has_stopped(self.marks))
    }

    // Reads to the end of input. A loop has to end, and nothing says that the input does: it has as many turns as no run uses up.
    fn feed_input(&mut self, rt: &impl Print, source: &mut impl Read) -> io::Result<()> {
        for _ in 0..u64::MAX {
            if !self.feed_some(rt, source)? {
                break;
            }
        }
        Ok(())
    }
}

fn main(rt: HostRuntime) -> io::Result<()> {
    let mut desk = Desk {
        marks: desk_marks::empty(),
        register: [0; desk::REGISTER_SIZE],
        guide: [0; desk::GUIDE_SIZE],
        collection: [0; desk_marks::COLLECTION_SIZE],
        line: [0; desk_marks::LINE_SIZE],
        out: [0; desk_marks::OUT_SIZE],
    };
    desk.feed_input(&rt, &mut rt.reader())?;
    let fed = desk::finish(
        desk.marks,
        &mut desk.register,
        &mut desk.guide,
        &mut desk.collection,
        &desk.line,
        &mut desk.out,
    );
    desk.write(&rt, fed.said)
}
