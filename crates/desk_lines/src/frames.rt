// What a frame does. Each promise is that of the definition, whatever the line is.
//
// A part that is only read is lent by `&mut *` all the same: of what a field lends as `&`, a proof knows no byte afterwards.
ghost use Rattle.std.specs.Prelude.{◌≡◌, List, ℕ};
ghost use Rattle.desk_rules.specs.Desk.{Desk, unread, collecting, taking_guide, taking_data, looking, framed};
ghost use Rattle.desk_lines.specs.Acts.{acted, IsSameLoan, Acts};

use crate::bench::Bench;
use crate::say;
use versions::Version;

const MOST_ANSWERS: usize = 325;

// A frame that the desk reads.
pub enum Frame<'a> {
    Collect(&'a [u8]),
    TakeGuide,
    TakeData,
    Look(&'a [u8]),
}

impl<'a> Frame<'a> {
    // By its code and the bytes behind it. A take has none.
    #[tactic(auto, unfolding(desk_rules::specs::Desk::framed))]
    pub fn of(code: u8, bytes: &'a [u8]) -> Option<Frame<'a>>
        ensures { (d : Desk) → framed d code bytes.now ≡ acted d result }
    {
        match code {
            1 => Some(Frame::Collect(bytes)),
            2 if bytes.is_empty() => Some(Frame::TakeGuide),
            3 if bytes.is_empty() => Some(Frame::TakeData),
            4 => Some(Frame::Look(bytes)),
            _ => None,
        }
    }
}

impl Bench<'_> {
    // A line that can't be read or collected does nothing else.
    pub fn unread(&mut self) -> usize
        ensures same { IsSameLoan self.old self.new }
        ensures acts { (l : List ℕ) → Acts unread self.old l self.new l result }
    {
        say::unread(self.out, self.marks.lines)
    }

    // The bytes are collected, if there is room for them.
    fn collect(&mut self, bytes: &[u8]) -> usize
        ensures same { IsSameLoan self.old self.new }
        ensures acts { (l : List ℕ) → Acts (λ d. collecting d bytes.now) self.old l self.new l result }
    {
        let collected = self.marks.collected + bytes.len();
        if collected <= desk_marks::MOST_COLLECTED {
            text::put(self.collection, self.marks.collected, bytes);
            self.marks.collected = collected;
            return 0;
        }
        self.unread()
    }

    // The collection is taken as a guide file, and emptied.
    fn apply_guide(&mut self) -> usize
        ensures same { IsSameLoan self.old self.new }
        ensures acts { (l : List ℕ) → Acts taking_guide self.old l self.new l result }
    {
        let register: &[u8] = &mut *self.register;
        let collection: &[u8] = &mut *self.collection;
        let mut answers = [0; MOST_ANSWERS];
        let taken = taking::take::apply_guide(
            register,
            self.guide,
            &collection[..self.marks.collected],
            &mut answers,
            self.marks.guide,
        );
        self.marks = desk_marks::emptied(self.marks, taken.last, self.marks.register);
        say::taken(self.out, taken, &answers)
    }

    // The collection is taken as a data file of Version 2, and emptied.
    fn apply_data(&mut self) -> usize
        ensures same { IsSameLoan self.old self.new }
        ensures acts { (l : List ℕ) → Acts taking_data self.old l self.new l result }
    {
        let guide: &[u8] = &mut *self.guide;
        let collection: &[u8] = &mut *self.collection;
        let mut answers = [0; MOST_ANSWERS];
        let taken = taking::take::apply_data(
            Version::Two,
            self.register,
            guide,
            &collection[..self.marks.collected],
            &mut answers,
            self.marks.register,
        );
        self.marks = desk_marks::emptied(self.marks, self.marks.guide, taken.last);
        say::taken(self.out, taken, &answers)
    }

    // A number is looked up.
    fn look(&mut self, number: &[u8]) -> usize
        ensures same { IsSameLoan self.old self.new }
        ensures acts { (l : List ℕ) → Acts (λ d. looking d number.now) self.old l self.new l result }
    {
        let register: &[u8] = &mut *self.register;
        let seen = lookup::look(register, number);
        say::seen(self.out, seen)
    }

    // What is no frame can't be read.
    pub fn act(&mut self, frame: Option<Frame>) -> usize
        ensures same { IsSameLoan self.old self.new }
        ensures acts { (l : List ℕ) → Acts (λ d. acted d frame.entry) self.old l self.new l result }
    {
        match frame {
            Some(Frame::Collect(bytes)) => self.collect(bytes),
            Some(Frame::TakeGuide) => self.apply_guide(),
            Some(Frame::TakeData) => self.apply_data(),
            Some(Frame::Look(number)) => self.look(number),
            None => self.unread(),
        }
    }
}
