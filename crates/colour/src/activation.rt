// Activating the staged colour.
ghost use Rattle.std.specs.Prelude.{◌≡◌};
ghost use Rattle.colour.specs.Activation.{unlinked, chosen, activated, strays, activate, automatic, is_idle, arc_power, recall};

use crate::limits::Limits;
use crate::record::Colour;
use crate::setting::ColourSetting;
use crate::staging::load_temporaries_from;
use crate::tint::{ColorMode, Tint};

// The control with no channel linked.
#[tactic(auto, unfolding(crate::specs::Activation::unlinked))]
pub fn unlinked(control: u8) -> u8
    ensures { result ≡ unlinked control }
{
    control / 64 * 64
}

// The staged control, unless it says 'no change'.
#[tactic(auto, unfolding(crate::specs::Activation::chosen))]
pub fn chosen(control: u8, staged: u8) -> u8
    ensures { result ≡ chosen control staged }
{
    if staged == ColourSetting::CONTROL_MASK {
        control
    } else {
        staged
    }
}

// The active colour once the staged one is put in its place. A colour temperature is clamped here, and not before. It takes the parts: with
// the colour whole here and in `strays`, and `==` for `matches!`, a step of the mix 'power' (bench/run) took 192 instructions with its line and
// not 183, where the old form took 182.
#[tactic(auto, unfolding(crate::specs::Activation::activated))]
fn activated(active: Tint, pending: Tint, limits: Limits) -> Tint
    ensures { result ≡ activated active pending limits }
{
    match pending.mode {
        ColorMode::None => active,
        ColorMode::Xy => Tint {
            mode: ColorMode::Xy,
            x: pending.x,
            y: pending.y,
            control: unlinked(active.control),
            ..active
        },
        ColorMode::Cct => Tint {
            mode: ColorMode::Cct,
            tc: limits.hold(pending.tc),
            control: unlinked(active.control),
            ..active
        },
        ColorMode::Rgb => {
            let levels = pending.levels;
            Tint {
                mode: ColorMode::Rgb,
                levels,
                control: chosen(active.control, pending.control),
                ..active
            }
        }
    }
}

// Whether the active colour is marked out of range after the staged one was put in its place.
#[tactic(auto, unfolding(crate::specs::Activation::strays))]
fn strays(outside: bool, pending: Tint, limits: Limits) -> bool
    ensures { result ≡ strays outside pending limits }
{
    if matches!(pending.mode, ColorMode::Cct) {
        limits.hold(pending.tc) != pending.tc
    } else {
        outside
    }
}

#[tactic(auto, unfolding(crate::specs::Activation::activate))]
pub fn activate_pending_color(colour: Colour) -> Colour
    ensures { result ≡ activate colour }
{
    Colour {
        active: activated(colour.active, colour.pending, colour.limits),
        outside: strays(colour.outside, colour.pending, colour.limits),
        pending: colour.pending.unstaged(),
        ..colour
    }
}

#[tactic(auto, unfolding(crate::specs::Activation::automatic))]
pub fn automatic_activation(colour: Colour) -> bool
    ensures { result ≡ automatic colour }
{
    colour.features % 2 == 1
}

// No change to come: automatic activation is off, or no mode is staged and the staged control is the mask already.
#[tactic(auto, unfolding(crate::specs::Activation::is_idle))]
fn is_idle(colour: Colour) -> bool
    ensures { result ≡ is_idle colour }
{
    !automatic_activation(colour)
        || matches!(colour.pending.mode, ColorMode::None)
            && colour.pending.control == ColourSetting::CONTROL_MASK
}

// Part 209, 9.12.5: a change of arc power activates what is staged, where automatic activation is on.
#[tactic(auto, using(crate::proofs::Left::idle_kept), unfolding(crate::specs::Activation::arc_power, crate::specs::Activation::is_idle))]
pub fn arc_power_activation(colour: Colour) -> Colour
    ensures { result ≡ arc_power colour }
{
    if is_idle(colour) {
        return colour;
    }
    activate_pending_color(colour)
}

// Part 209, 9.11.4: recalling a scene stages its colour, unless it has none, and activates it where that is automatic.
#[tactic(auto, unfolding(crate::specs::Activation::recall))]
pub fn recall(colour: Colour, scene: ColourSetting) -> Colour
    ensures { result ≡ recall colour scene }
{
    if scene.kind == ColourSetting::MASK {
        return colour;
    }
    arc_power_activation(load_temporaries_from(colour, scene))
}
