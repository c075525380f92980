// The tagged data record of Exhibit 10: read into a Version 2 record, and written from one. A refusal writes nothing.
#![tactic(auto)]

ghost use Rattle.std.specs.Prelude.{◌≡◌};
ghost use Rattle.rules.specs.Refusing.{refusal_number, refusal_position};

use rules::refusing::Refused;
use tag_rules::Tagged;

mod form;
pub mod read;
mod table;
pub mod write;
mod written;

// A refusal; the position is told in 9 only.
fn refused(why: Refused) -> Tagged
    ensures { result ≡ record { refusal = refusal_number why; position = refusal_position why; bytes = 0 } }
{
    let told = why.told();
    Tagged {
        refusal: told.number,
        position: told.position,
        bytes: 0,
    }
}
