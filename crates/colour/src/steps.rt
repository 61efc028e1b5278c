// Steps of the active colour, and the limit store that can move it.
ghost use Rattle.std.specs.Prelude.{◌≡◌};
ghost use Rattle.colour.specs.Steps.{stepped_tc, stepped_xy, tc_step, moved, xy_step, store_tc_limit};

use crate::bounded::BoundedTc;
use crate::limits::Limits;
use crate::record::Colour;
use crate::tint::{ColorMode, Tint};

// How far a coordinate moves in a step, and the last one.
const XY_STEP: u16 = 256;

const XY_LAST: u16 = 0xFFFE;

// One mirek, not past the effective limits.
#[tactic(auto, unfolding(crate::specs::Steps::stepped_tc))]
pub fn stepped_tc(tc: u16, limits: Limits, warmer: bool) -> u16
    ensures { result ≡ stepped_tc tc limits warmer }
{
    if warmer {
        tc.saturating_add(1).min(limits.effective_warmest())
    } else {
        tc.saturating_sub(1).max(limits.effective_coolest())
    }
}

#[tactic(auto, unfolding(crate::specs::Steps::stepped_xy))]
pub fn stepped_xy(at: u16, up: bool) -> u16
    ensures { result ≡ stepped_xy at up }
{
    if up {
        at.saturating_add(XY_STEP).min(XY_LAST)
    } else {
        at.saturating_sub(XY_STEP)
    }
}

// One step warmer or cooler, for an active colour temperature alone; it ends within the limits.
#[tactic(auto, unfolding(crate::specs::Steps::tc_step))]
pub fn tc_step(colour: Colour, warmer: bool) -> Colour
    ensures { result ≡ tc_step colour warmer }
{
    if colour.active.mode != ColorMode::Cct {
        return colour;
    }
    Colour {
        active: Tint {
            tc: stepped_tc(colour.active.tc, colour.limits, warmer),
            ..colour.active
        },
        outside: false,
        ..colour
    }
}

// The active coordinates moved along one axis.
#[tactic(auto, unfolding(crate::specs::Steps::moved))]
fn moved(active: Tint, y_axis: bool, up: bool) -> Tint
    ensures { result ≡ moved active y_axis up }
{
    if y_axis {
        Tint {
            y: stepped_xy(active.y, up),
            ..active
        }
    } else {
        Tint {
            x: stepped_xy(active.x, up),
            ..active
        }
    }
}

// One step along an axis, for an active coordinate pair alone.
#[tactic(auto, unfolding(crate::specs::Steps::xy_step))]
pub fn xy_step(colour: Colour, y_axis: bool, up: bool) -> Colour
    ensures { result ≡ xy_step colour y_axis up }
{
    if colour.active.mode != ColorMode::Xy {
        return colour;
    }
    Colour {
        active: moved(colour.active, y_axis, up),
        ..colour
    }
}

// Part 209, 9.13: the limit store, on the few numbers that it works on, which are then put back.
#[tactic(auto, using(crate::proofs::Left::store_put_back))]
pub fn store_tc_limit(colour: Colour, value: u16, selector: u8) -> Colour
    ensures { result ≡ store_tc_limit colour value selector }
{
    let bounded = BoundedTc {
        limits: colour.limits,
        tc: colour.active.tc,
        mode: colour.active.mode,
        outside: colour.outside,
    };
    let stored = bounded.store(value, selector);
    Colour {
        limits: stored.limits,
        active: Tint {
            tc: stored.tc,
            ..colour.active
        },
        outside: stored.outside,
        ..colour
    }
}
