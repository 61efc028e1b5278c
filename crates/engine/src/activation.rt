// Activating the staged colour of a slot (part 209, 9.12.5). Of the parts of a colour x, y, Tc and the six levels stand side by side.
ghost use Rattle.colour.specs.Activation.{activate, arc_power};
ghost use Rattle.colour.specs.declared.tint.ColorMode.TheVariants.{Cct, Rgb, Xy};
ghost use Rattle.engine.specs.Colours.{Activates};
ghost use Rattle.gear.specs.Parts.{with_colour};
ghost use Rattle.slot.specs.Held.{Does};

use crate::serve::Slot;
use crate::staging::unstage;
use crate::stores::put_word;
use colour::activation::{chosen, unlinked};
use colour::setting::ColourSetting;
use colour::tint::ColorMode;
use slot::bytes::word;
use slot::parts::limits_of;
use slot::places::{ACTIVE, CHANNEL_LEVELS, CONTROL, FEATURES, KIND, OUTSIDE, STAGED, TC};

// Coordinates: they unlink the channels.
fn activate_xy(slot: &mut Slot)
    ensures { Activates Xy slot.old slot.new }
{
    slot.copy_within(STAGED..STAGED + TC, ACTIVE);
    slot[ACTIVE + CONTROL] = unlinked(slot[ACTIVE + CONTROL]);
    slot[ACTIVE + KIND] = ColourSetting::XY;
    unstage(slot);
}

// A temperature, held within the limits as they are now and marked where that moved it.
fn activate_tc(slot: &mut Slot)
    ensures { Activates Cct slot.old slot.new }
{
    let limits = limits_of(slot);
    let staged = word(slot, STAGED + TC);
    let tc = limits.hold(staged);
    slot[OUTSIDE] = u8::from(tc != staged);
    put_word(slot, ACTIVE + TC, tc);
    slot[ACTIVE + CONTROL] = unlinked(slot[ACTIVE + CONTROL]);
    slot[ACTIVE + KIND] = ColourSetting::TC;
    unstage(slot);
}

// The channels' levels, with their control unless it says 'no change'.
fn activate_channels(slot: &mut Slot)
    ensures { Activates Rgb slot.old slot.new }
{
    slot.copy_within(
        STAGED + CHANNEL_LEVELS..STAGED + CONTROL,
        ACTIVE + CHANNEL_LEVELS,
    );
    slot[ACTIVE + CONTROL] = chosen(slot[ACTIVE + CONTROL], slot[STAGED + CONTROL]);
    slot[ACTIVE + KIND] = ColourSetting::RGBWAF;
    unstage(slot);
}

// Each of the three unstages by itself: `Activates`, which they promise, is the whole of activation; with one `unstage` behind the match a
// second definition beside it would say what an arm leaves.
#[tactic(auto, unfolding(slot::specs::Image::image_of, colour::specs::Activation::activate, colour::specs::Activation::activated, colour::specs::Activation::strays))]
pub(crate) fn activate(slot: &mut Slot)
    ensures { Does (λ g. with_colour g (activate g.colour)) slot.old slot.new }
{
    match ColorMode::from(slot[STAGED + KIND]) {
        ColorMode::None => unstage(slot),
        ColorMode::Xy => activate_xy(slot),
        ColorMode::Cct => activate_tc(slot),
        ColorMode::Rgb => activate_channels(slot),
    }
}

// A change of arc power activates what is staged, where automatic activation is on.
#[tactic(auto, using(crate::proofs::Blocks::features_byte), unfolding(colour::specs::Activation::arc_power, colour::specs::Activation::automatic))]
pub(crate) fn activate_by_arc(slot: &mut Slot)
    ensures { Does (λ g. with_colour g (arc_power g.colour)) slot.old slot.new }
{
    // As colour's `automatic_activation`, which takes a whole colour for this one byte.
    if slot[FEATURES] % 2 == 1 {
        activate(slot);
    }
}
