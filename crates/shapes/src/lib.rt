// How long the lines of a file are: of a guide file, and of a data file of either version.
#![tactic(auto)]

ghost use Rattle.std.specs.Prelude.{◌≡◌, ◌≤◌};
ghost use Rattle.rules.specs.Takes.{shape_of};

use layout::place;
use rules::Kind;
use versions::Version;

// The bytes of header and trailer, and those of a record or a row.
#[derive(Clone, Copy)]
pub struct Sizes {
    pub frame: usize,
    pub line: usize,
}

pub fn sizes_of(kind: Kind) -> Sizes
    ensures { ((result.frame ≡ (shape_of kind).frame) × (result.line ≡ (shape_of kind).line)) × ((result.frame ≤ 200) × ((1 ≤ result.line) × (result.line ≤ 512))) }
{
    match kind {
        Kind::Data(version) => match version {
            Version::One => Sizes {
                frame: place::NARROW_FRAME_SIZE,
                line: place::NARROW_SIZE,
            },
            Version::Two => Sizes {
                frame: place::FRAME_SIZE,
                line: place::RECORD_SIZE,
            },
        },
        Kind::Guide => Sizes {
            frame: place::FRAME_SIZE,
            line: place::ROW_SIZE,
        },
    }
}
