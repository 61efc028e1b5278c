// A power cycle of a slot (part 102, 9.13; part 209, table 8).
ghost use Rattle.calls.specs.Power.{power_cycle, power_cycle_call};
ghost use Rattle.colour.specs.Record.{power_up as power_up_colour};
ghost use Rattle.engine.specs.Served.{Served};
ghost use Rattle.gear.specs.Marks.{power_up_marks};
ghost use Rattle.gear.specs.Parts.{with_colour, with_light, with_marks};
ghost use Rattle.level.specs.Levels.{power_up};
ghost use Rattle.slot.specs.Held.{Does};

use crate::levels::put_levels;
use crate::serve::{Slot, change};
use colour::record::Colour;
use colour::setting::ColourSetting;
use gear::answer::Answer;
use slot::parts::levels_of;
use slot::places::{
    ACTIVE, ADJUSTABLE, CHANNEL_LEVELS, CONTROL, CYCLED, FEATURES, FRAME, INITIALISE, ON,
    SETTING_LEVEL, STAGED,
};

// The level is the stored one, unless that is the mask.
fn power_up_levels(slot: &mut Slot)
    ensures { Does (λ g. with_light g (power_up g.levels g.settings.on.level) g.marks g.colour) slot.old slot.new }
{
    let levels = levels_of(slot).power_up(slot[ON + SETTING_LEVEL]);
    put_levels(slot, levels);
}

// A power cycle is seen; the marks behind it end, the pair's among them.
fn power_up_marks(slot: &mut Slot)
    ensures { Does (λ g. with_marks g (power_up_marks g.marks)) slot.old slot.new }
{
    slot[CYCLED] = 1;
    slot[INITIALISE..ADJUSTABLE].fill(0);
    slot[FRAME..FRAME + 2].fill(0);
}

// The active channels go dark and are all linked. Nothing is staged and nothing reported: both lie side by side.
fn power_up_colour(slot: &mut Slot)
    ensures { Does (λ g. with_colour g (power_up_colour g.colour)) slot.old slot.new }
{
    slot[FEATURES] = Colour::POWER_UP_FEATURES;
    slot[ACTIVE + CHANNEL_LEVELS..ACTIVE + CONTROL].fill(0);
    slot[ACTIVE + CONTROL] = Colour::POWER_UP_CONTROL;
    slot[STAGED + CHANNEL_LEVELS..STAGED + CONTROL].fill(0);
    slot[STAGED + CONTROL..ON].fill(ColourSetting::MASK);
}

#[tactic(auto, unfolding(calls::specs::Power::power_cycle))]
pub(crate) fn cycle(slot: &mut Slot)
    ensures { Does power_cycle slot.old slot.new }
{
    power_up_levels(slot);
    power_up_marks(slot);
    power_up_colour(slot);
}

pub fn power_cycle(slot: &mut [u8]) -> Answer
    ensures { Served power_cycle_call slot.old slot.new result }
{
    change(slot, cycle)
}
