// The desk in the bytes that a program lends.
ghost use Rattle.std.specs.Prelude.{◌+◌, ◌≤◌, length};
ghost use Rattle.desk_rules.specs.Desk.{most_collected, most_typed, most_lines};
ghost use Rattle.desk_rules.specs.Served.{most_said};

use desk_rules::Marks;

// The marks, and all that is lent but the line: the marks lie within what a desk may hold, and there is room for all that it may
// collect and say.
#[derive(Drop)]
pub struct Bench<'a> {
    pub marks: Marks,
    pub register: &'a mut [u8],
    pub guide: &'a mut [u8],
    pub collection: &'a mut [u8],
    pub out: &'a mut [u8],
    ghost lines: { marks.lines ≤ most_lines },
    ghost typed: { marks.typed ≤ most_typed + 1 },
    ghost collected: { marks.collected ≤ most_collected },
    ghost room_to_collect: { most_collected ≤ length collection.now },
    ghost room_to_say: { most_said ≤ length out.now },
}
