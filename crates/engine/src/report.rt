// The colour that a query reports (part 209, 11.3.2).
ghost use Rattle.std.specs.Prelude.{◌≡◌};
ghost use Rattle.engine.specs.Reported.{shown_by, with_report};
ghost use Rattle.slot.specs.Held.{Does};
ghost use Rattle.slot.specs.Record.{gear_of};

use crate::serve::Slot;
use colour::setting::ColourSetting;
use gear::profile::Unit;
use query::heard::reports;
use slot::image::put_colour_at;
use slot::parts::{colour_at, scene_place, tint_at};
use slot::places::{ACTIVE, FAILURE, ON, REPORT};

// The colour of the level that a query tells. By the bytes, as the rule has it: with a match on query's `level_told` the proof of no arm closed
// (tried).
#[tactic(auto, unfolding(slot::specs::Record::gear_of, query::specs::Heard::shown))]
fn shown(slot: &Slot, byte: u8) -> ColourSetting
    ensures { result ≡ shown_by (gear_of slot.now) byte }
{
    match byte {
        160 => tint_at(slot, ACTIVE).captured(),
        163 => colour_at(slot, ON),
        164 => colour_at(slot, FAILURE),
        // The low half of the byte names a scene.
        _ => colour_at(slot, scene_place(byte % 16)),
    }
}

// Only a colour gear reports.
pub(crate) fn report(slot: &mut Slot, unit: Unit, byte: u8)
    ensures { Does (λ g. with_report g unit byte) slot.old slot.new }
{
    if reports(unit, byte) {
        let colour = shown(slot, byte);
        put_colour_at(slot, REPORT, colour);
    }
}
