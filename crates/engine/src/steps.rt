// Steps of the active colour of a slot, and the limit store that can move it.
ghost use Rattle.colour.specs.Bounded.{put_back};
ghost use Rattle.colour.specs.Steps.{store_tc_limit, tc_step, with_active, xy_step};
ghost use Rattle.gear.specs.Parts.{with_colour};
ghost use Rattle.slot.specs.Held.{Does};

use crate::serve::Slot;
use crate::stores::put_word;
use colour::bounded::BoundedTc;
use colour::limits::Limits;
use colour::steps::{stepped_tc, stepped_xy};
use colour::tint::ColorMode;
use slot::bytes::{flag, word};
use slot::parts::limits_of;
use slot::places::{
    ACTIVE, COOLEST, KIND, OUTSIDE, PHYSICAL_COOLEST, PHYSICAL_WARMEST, TC, WARMEST, X, Y,
};

// One step warmer or cooler, for an active colour temperature alone; it ends within the limits.
pub(crate) fn step_tc(slot: &mut Slot, warmer: bool)
    ensures { Does (λ g. with_colour g (tc_step g.colour warmer)) slot.old slot.new }
{
    if ColorMode::from(slot[ACTIVE + KIND]) != ColorMode::Cct {
        return;
    }
    let tc = stepped_tc(word(slot, ACTIVE + TC), limits_of(slot), warmer);
    slot[OUTSIDE] = 0;
    put_word(slot, ACTIVE + TC, tc);
}

// One step along an axis, for an active coordinate pair alone.
pub(crate) fn step_xy(slot: &mut Slot, y_axis: bool, up: bool)
    ensures { Does (λ g. with_colour g (xy_step g.colour y_axis up)) slot.old slot.new }
{
    if ColorMode::from(slot[ACTIVE + KIND]) != ColorMode::Xy {
        return;
    }
    let axis = ACTIVE + if y_axis { Y } else { X };
    let moved = stepped_xy(word(slot, axis), up);
    put_word(slot, axis, moved);
}

#[tactic(auto, unfolding(slot::specs::Image::image_of))]
fn put_limits(slot: &mut Slot, limits: Limits)
    ensures { Does (λ g. with_colour g (with_active g.colour limits g.colour.active g.colour.outside)) slot.old slot.new }
{
    put_word(slot, COOLEST, limits.stored.coolest);
    put_word(slot, WARMEST, limits.stored.warmest);
    put_word(slot, PHYSICAL_COOLEST, limits.physical.coolest);
    put_word(slot, PHYSICAL_WARMEST, limits.physical.warmest);
}

#[tactic(auto, using(slot::proofs::Puts::flag_stored), unfolding(slot::specs::Image::image_of))]
fn put_bounded(slot: &mut Slot, bounded: BoundedTc)
    ensures { Does (λ g. with_colour g (put_back g.colour bounded)) slot.old slot.new }
{
    put_limits(slot, bounded.limits);
    slot[OUTSIDE] = u8::from(bounded.outside);
    put_word(slot, ACTIVE + TC, bounded.tc);
}

// Part 209, 9.13: the limit that the selector names, and then an active colour temperature is snapped and marked.
pub(crate) fn store_limit(slot: &mut Slot, value: u16, selector: u8)
    ensures { Does (λ g. with_colour g (store_tc_limit g.colour value selector)) slot.old slot.new }
{
    let bounded = BoundedTc {
        limits: limits_of(slot),
        tc: word(slot, ACTIVE + TC),
        mode: ColorMode::from(slot[ACTIVE + KIND]),
        outside: flag(slot, OUTSIDE),
    };
    put_bounded(slot, bounded.store(value, selector));
}
