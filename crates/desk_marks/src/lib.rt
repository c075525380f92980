// What the desk knows beside its lent bytes: the marks of an empty desk, those after a take, and whether there is room for all that a
// desk may hold and say. It is a crate of its own so that its numbers are checked in seconds.
#![tactic(auto)]

ghost use Rattle.std.specs.Prelude.{◌≡◌};
ghost use Rattle.desk_rules.specs.Desk.{empty_desk, stops_after};
ghost use Rattle.desk_rules.specs.Served.{has_room, marks_of};

use desk_rules::Marks;

const MOST_LINES: u32 = 65535;

// A line of more characters can't be read.
pub const MOST_TYPED: usize = 2050;

pub const MOST_COLLECTED: usize = 65424;

// What must be lent beside the stores: room for the collection, for a line and one character more, and for the longest reply.
pub const COLLECTION_SIZE: usize = MOST_COLLECTED;

pub const LINE_SIZE: usize = MOST_TYPED + 1;

pub const OUT_SIZE: usize = 2936;

// The marks of an empty desk.
#[tactic(auto, unfolding(desk_rules::specs::Served::marks_of, desk_rules::specs::Desk::empty_desk))]
pub fn empty() -> Marks
    ensures { result ≡ marks_of empty_desk }
{
    Marks::default()
}

// Whether the last line has ended that is answered.
pub fn has_stopped(m: Marks) -> bool
    ensures { result ≡ stops_after m.lines }
{
    MOST_LINES <= m.lines
}

// There is room for all that a desk may hold and say, and the marks lie within it.
#[tactic(auto, unfolding(desk_rules::specs::Served::has_room))]
pub fn is_ready(m: Marks, collection: usize, line: usize, out: usize) -> bool
    ensures { result ≡ has_room m collection line out }
{
    ((COLLECTION_SIZE <= collection) & ((LINE_SIZE <= line) & (OUT_SIZE <= out)))
        & ((m.collected <= COLLECTION_SIZE) & ((m.typed <= LINE_SIZE) & (m.lines <= MOST_LINES)))
}

// The marks after a take, with its last cycles: the collection is empty.
pub fn emptied(m: Marks, guide: u32, register: u32) -> Marks
    ensures { result ≡ record { lines = m.lines; typed = m.typed; collected = 0; guide = guide; register = register } }
{
    Marks {
        collected: 0, // "A take empties the collection"
        guide,
        register,
        ..m
    }
}
