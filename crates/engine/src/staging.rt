// Staging a colour in a slot, part by part: x, y, Tc, six levels, control and type.
ghost use Rattle.std.specs.Prelude.{◌≡◌};
ghost use Rattle.colour.specs.Staging.{copy_report, load_temporaries_from};
ghost use Rattle.engine.specs.Colours.{Stages, nothing_staged};
ghost use Rattle.gear.specs.Parts.{with_colour};
ghost use Rattle.slot.specs.Held.{Does};

use crate::serve::Slot;
use crate::stores::put_word;
use colour::setting::ColourSetting;
use colour::tint::ColorMode;
use slot::parts::colour_at;
use slot::places::{CHANNEL_LEVELS, CONTROL, KIND, REPORT, STAGED, TC, X, Y};

// Nothing is staged any more: the numbers of what was stay behind.
pub(crate) fn unstage(slot: &mut Slot)
    ensures { slot.new ≡ nothing_staged slot.old }
{
    slot[STAGED + CONTROL] = ColourSetting::CONTROL_MASK;
    slot[STAGED + KIND] = ColourSetting::MASK;
}

fn stage_channels(slot: &mut Slot, setting: ColourSetting)
    ensures { Stages 0x80 setting slot.old slot.new }
{
    slot[STAGED + CHANNEL_LEVELS..STAGED + CONTROL].copy_from_slice(&setting.levels);
    slot[STAGED + CONTROL] = setting.control;
    slot[STAGED + KIND] = ColourSetting::RGBWAF;
}

#[tactic(auto, unfolding(slot::specs::Image::image_of, colour::specs::Staging::load, colour::specs::Staging::load_temporaries_from))]
fn stage_xy(slot: &mut Slot, setting: ColourSetting)
    ensures { Stages 0x10 setting slot.old slot.new }
{
    put_word(slot, STAGED + X, setting.x);
    put_word(slot, STAGED + Y, setting.y);
    slot[STAGED + CONTROL] = ColourSetting::CONTROL_MASK;
    slot[STAGED + KIND] = ColourSetting::XY;
}

#[tactic(auto, unfolding(slot::specs::Image::image_of, colour::specs::Staging::load, colour::specs::Staging::load_temporaries_from))]
fn stage_tc(slot: &mut Slot, setting: ColourSetting)
    ensures { Stages 0x20 setting slot.old slot.new }
{
    put_word(slot, STAGED + TC, setting.tc);
    slot[STAGED + CONTROL] = ColourSetting::CONTROL_MASK;
    slot[STAGED + KIND] = ColourSetting::TC;
}

// Its own numbers over those that were staged; an unknown type unstages.
#[tactic(auto, unfolding(slot::specs::Image::image_of, colour::specs::Staging::load, colour::specs::Staging::load_temporaries_from))]
pub(crate) fn stage(slot: &mut Slot, setting: ColourSetting)
    ensures { Does (λ g. with_colour g (load_temporaries_from g.colour setting)) slot.old slot.new }
{
    match ColorMode::from(setting.kind) {
        ColorMode::None => unstage(slot),
        ColorMode::Xy => stage_xy(slot, setting),
        ColorMode::Cct => stage_tc(slot, setting),
        ColorMode::Rgb => stage_channels(slot, setting),
    }
}

pub(crate) fn copy_report(slot: &mut Slot)
    ensures { Does (λ g. with_colour g (copy_report g.colour)) slot.old slot.new }
{
    let report = colour_at(slot, REPORT);
    stage(slot, report);
}
