// One step of a session: four bytes, kind, a, b and c, on a record.
#![tactic(auto)]

ghost use Rattle.std.specs.Prelude.{◌≡◌};
ghost use Rattle.step.specs.Kinds.{taken};
ghost use Rattle.step.specs.Step.{temperature, step};

pub mod kind;

use crate::kind::{Step, step_of};
use calls::colours::{
    activate_pending_color, color_value, copy_report_to_temporary, load_temporaries_from,
    set_gear_features, store_tc_limit, tc_step,
};
use calls::memory::{memory_location, write_memory_location};
use calls::power::power_cycle;
use colour::setting::ColourSetting;
use gear::answer::{Outcome, Refusal, refused, unchanged};
use gear::record::Gear;
use gear::serve::serve;
use gear::write::{apply_standard_write, direct_arc_power};
use query::reply::gear_query_reply;

// A colour temperature to be staged.
#[tactic(auto, unfolding(crate::specs::Step::temperature))]
pub fn temperature(tc: u16) -> ColourSetting
    ensures { result ≡ temperature tc }
{
    ColourSetting {
        kind: ColourSetting::TC,
        tc,
        ..ColourSetting::mask()
    }
}

#[tactic(auto, unfolding(crate::specs::Kinds::taken))]
fn taken(gear: Gear, step: Option<Step>) -> Outcome
    ensures { result ≡ taken gear step }
{
    let Some(step) = step else {
        return serve(gear, refused(gear, Refusal::Byte));
    };
    match step {
        Step::DirectArcPower(level) => direct_arc_power(gear, level),
        Step::Write { byte, dtr0 } => apply_standard_write(gear, byte, dtr0),
        Step::Query(byte) => gear_query_reply(gear, byte),
        Step::ReadMemory { bank, offset } => unchanged(gear, memory_location(gear, bank, offset)),
        Step::WriteMemory {
            bank,
            offset,
            value,
        } => write_memory_location(gear, bank, offset, value),
        Step::ColourValue(id) => unchanged(gear, color_value(gear, id)),
        Step::StoreTcLimit { selector, value } => store_tc_limit(gear, value, selector),
        Step::TcStep { warmer } => tc_step(gear, warmer),
        Step::StageTc(tc) => load_temporaries_from(gear, temperature(tc)),
        Step::Activate => activate_pending_color(gear),
        Step::PowerCycle => power_cycle(gear),
        Step::CopyReport => copy_report_to_temporary(gear),
        Step::SetFeatures(features) => set_gear_features(gear, features),
    }
}

// A public function: its four arguments, kind, a, b and c, stay as callers have them.
#[tactic(auto, using(crate::proofs::Decoded::step_taken))]
pub fn step(gear: Gear, kind: u8, a: u8, b: u8, c: u8) -> Outcome
    ensures { result ≡ step gear kind a b c }
{
    taken(gear, step_of(kind, a, b, c))
}
