// The status byte (part 102, 9.16).
ghost use Rattle.std.specs.Prelude.{◌≡◌};
ghost use Rattle.query.specs.Status.{lamp_failing, status_byte};

use crate::bits::weight;
use crate::lamp::{lamp_failure_from_207, lamp_on};
use gear::condition::Condition;
use gear::marks::Marks;
use gear::profile::Unit;
use level::levels::Levels;

#[tactic(auto, unfolding(crate::specs::Status::lamp_failing))]
fn lamp_failing(unit: Unit, condition: Condition) -> bool
    ensures { result ≡ lamp_failing unit condition.lamp condition.faults }
{
    condition.lamp.failure || lamp_failure_from_207(unit, condition.faults)
}

// Bit 1 lamp failure, 2 lamp on, 3 limit error, 5 reset state, 6 missing short address, 7 power cycle seen; the forced bits
// are set besides.
#[tactic(auto, unfolding(crate::specs::Status::missing, crate::specs::Status::status_byte))]
pub fn status_byte(unit: Unit, levels: Levels, marks: Marks, condition: Condition) -> u8
    ensures { result ≡ status_byte unit levels marks condition.lamp condition.faults }
{
    // The rule joins them so, and the kit has no lemma by which `|` could be regrouped into the order of the bits.
    condition.faults.forced
        | weight(lamp_failing(unit, condition), 2)
        | weight(lamp_on(unit, levels, condition), 4)
        | (weight(levels.error, 8) | weight(marks.reset, 32))
        | weight(marks.cycled, 128)
        | weight(unit.short.is_none(), 64)
}
