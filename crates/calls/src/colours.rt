// Colour calls: those of the colour library, under the fit test.
ghost use Rattle.std.specs.Prelude.{◌≡◌};
ghost use Rattle.calls.specs.Colours.{tc_step_call, xy_step_call, store_tc_limit_call, stage_call, activate_call, copy_report_call, set_features_call, color_value_call, colour_status_call, features_call, control_call, feature_byte_call, automatic_call};

use crate::reads::tell_byte;
use colour::activation::{activate_pending_color as activate, automatic_activation as automatic};
use colour::setting::ColourSetting;
use colour::staging::{copy_report_to_temporary as copy, load_temporaries_from as load};
use colour::steps::{store_tc_limit as store, tc_step as step_tc, xy_step as step_xy};
use colour::value::{
    color_value as value_of, dt8_colour_status as status_of, dt8_features as features_of,
    gear_features_byte as feature_byte, rgbwaf_control_byte as control_of,
};
use gear::answer::{Answer, Outcome, Refusal, done, flag, refused, unexplained, value_answer};
use gear::record::Gear;
use gear::serve::tell;

#[tactic(auto, unfolding(crate::specs::Colours::tc_step_call, crate::specs::Colours::recoloured, gear::specs::Serve::serve))]
pub fn tc_step(gear: Gear, warmer: bool) -> Outcome
    ensures { result ≡ tc_step_call gear warmer }
{
    if !gear.fit() {
        return refused(gear, Refusal::Unfit);
    }
    let mut next = gear;
    next.colour = step_tc(next.colour, warmer);
    done(next)
}

#[tactic(auto, unfolding(crate::specs::Colours::xy_step_call, crate::specs::Colours::recoloured, gear::specs::Serve::serve))]
pub fn xy_step(gear: Gear, y_axis: bool, up: bool) -> Outcome
    ensures { result ≡ xy_step_call gear y_axis up }
{
    if !gear.fit() {
        return refused(gear, Refusal::Unfit);
    }
    let mut next = gear;
    next.colour = step_xy(next.colour, y_axis, up);
    done(next)
}

#[tactic(auto, unfolding(crate::specs::Colours::store_tc_limit_call, crate::specs::Colours::recoloured, gear::specs::Serve::serve))]
pub fn store_tc_limit(gear: Gear, value: u16, selector: u8) -> Outcome
    ensures { result ≡ store_tc_limit_call gear value selector }
{
    if !gear.fit() {
        return refused(gear, Refusal::Unfit);
    }
    let mut next = gear;
    next.colour = store(next.colour, value, selector);
    done(next)
}

// Stages a colour, whatever the gear can do.
#[tactic(auto, unfolding(crate::specs::Colours::stage_call, crate::specs::Colours::recoloured, gear::specs::Serve::serve))]
pub fn load_temporaries_from(gear: Gear, setting: ColourSetting) -> Outcome
    ensures { result ≡ stage_call gear setting }
{
    if !gear.fit() {
        return refused(gear, Refusal::Unfit);
    }
    let mut next = gear;
    next.colour = load(next.colour, setting);
    done(next)
}

#[tactic(auto, unfolding(crate::specs::Colours::activate_call, crate::specs::Colours::recoloured, gear::specs::Serve::serve))]
pub fn activate_pending_color(gear: Gear) -> Outcome
    ensures { result ≡ activate_call gear }
{
    if !gear.fit() {
        return refused(gear, Refusal::Unfit);
    }
    let mut next = gear;
    next.colour = activate(next.colour);
    done(next)
}

#[tactic(auto, unfolding(crate::specs::Colours::copy_report_call, crate::specs::Colours::recoloured, gear::specs::Serve::serve))]
pub fn copy_report_to_temporary(gear: Gear) -> Outcome
    ensures { result ≡ copy_report_call gear }
{
    if !gear.fit() {
        return refused(gear, Refusal::Unfit);
    }
    let mut next = gear;
    next.colour = copy(next.colour);
    done(next)
}

// The whole byte is stored; only bit 0 has an effect.
#[tactic(auto, unfolding(crate::specs::Colours::set_features_call, crate::specs::Colours::recoloured, gear::specs::Serve::serve))]
pub fn set_gear_features(gear: Gear, features: u8) -> Outcome
    ensures { result ≡ set_features_call gear features }
{
    if !gear.fit() {
        return refused(gear, Refusal::Unfit);
    }
    let mut next = gear;
    next.colour = next.colour.with_features(features);
    done(next)
}

#[tactic(auto, unfolding(crate::specs::Colours::color_value_call, gear::specs::Serve::tell))]
#[inline(always)]
pub fn color_value(gear: Gear, id: u8) -> Answer
    ensures { result ≡ color_value_call gear id }
{
    tell(gear, value_answer(value_of(gear.colour, id)))
}

#[tactic(auto, unfolding(crate::specs::Colours::colour_status_call))]
pub fn dt8_colour_status(gear: Gear) -> Answer
    ensures { result ≡ colour_status_call gear }
{
    tell_byte(gear, status_of(gear.colour))
}

#[tactic(auto, unfolding(crate::specs::Colours::features_call))]
pub fn dt8_features(gear: Gear) -> Answer
    ensures { result ≡ features_call gear }
{
    tell_byte(gear, features_of(gear.colour))
}

// Part 209's query 251, which a gear without channels does not answer.
#[tactic(auto, unfolding(crate::specs::Colours::control_call, gear::specs::Serve::tell))]
pub fn rgbwaf_control_byte(gear: Gear) -> Answer
    ensures { result ≡ control_call gear }
{
    tell(gear, unexplained(value_answer(control_of(gear.colour))))
}

#[tactic(auto, unfolding(crate::specs::Colours::feature_byte_call))]
pub fn gear_features_byte(gear: Gear) -> Answer
    ensures { result ≡ feature_byte_call gear }
{
    tell_byte(gear, feature_byte(gear.colour))
}

#[tactic(auto, unfolding(crate::specs::Colours::automatic_call, gear::specs::Serve::tell))]
pub fn automatic_activation(gear: Gear) -> Answer
    ensures { result ≡ automatic_call gear }
{
    tell(gear, flag(automatic(gear.colour)))
}
