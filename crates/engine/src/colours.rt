// Colour calls on a slot.
ghost use Rattle.std.specs.Prelude.{◌≡◌};
ghost use Rattle.calls.specs.Colours.{tc_step_call, xy_step_call, store_tc_limit_call, stage_call, activate_call, copy_report_call, set_features_call, color_value_call, colour_status_call, features_call, control_call, feature_byte_call, automatic_call};
ghost use Rattle.engine.specs.Served.{Served, told};

use crate::activation::activate;
use crate::serve::{change, tell};
use crate::staging::{copy_report, stage};
use crate::steps::{step_tc, step_xy, store_limit};
use colour::activation::automatic_activation as automatic;
use colour::setting::ColourSetting;
use colour::value::{
    color_value as value_of, dt8_colour_status as status_of, dt8_features as features_of,
    rgbwaf_control_byte as control_of,
};
use gear::answer::{Answer, Reply, flag, unexplained, value_answer};
use slot::parts::colour_of;
use slot::places::FEATURES;

pub fn tc_step(slot: &mut [u8], warmer: bool) -> Answer
    ensures { Served (λ g. tc_step_call g warmer) slot.old slot.new result }
{
    change(slot, |slot| step_tc(slot, warmer))
}

pub fn xy_step(slot: &mut [u8], y_axis: bool, up: bool) -> Answer
    ensures { Served (λ g. xy_step_call g y_axis up) slot.old slot.new result }
{
    change(slot, |slot| step_xy(slot, y_axis, up))
}

pub fn store_tc_limit(slot: &mut [u8], value: u16, selector: u8) -> Answer
    ensures { Served (λ g. store_tc_limit_call g value selector) slot.old slot.new result }
{
    change(slot, |slot| store_limit(slot, value, selector))
}

// Stages a colour, whatever the gear can do.
pub fn load_temporaries_from(slot: &mut [u8], setting: ColourSetting) -> Answer
    ensures { Served (λ g. stage_call g setting) slot.old slot.new result }
{
    change(slot, |slot| stage(slot, setting))
}

pub fn activate_pending_color(slot: &mut [u8]) -> Answer
    ensures { Served (λ g. activate_call g) slot.old slot.new result }
{
    change(slot, activate)
}

pub fn copy_report_to_temporary(slot: &mut [u8]) -> Answer
    ensures { Served (λ g. copy_report_call g) slot.old slot.new result }
{
    change(slot, copy_report)
}

// The whole byte is stored; only bit 0 has an effect.
pub fn set_gear_features(slot: &mut [u8], features: u8) -> Answer
    ensures { Served (λ g. set_features_call g features) slot.old slot.new result }
{
    change(slot, |slot| slot[FEATURES] = features)
}

pub fn color_value(slot: &[u8], id: u8) -> Answer
    ensures { result ≡ told (λ g. color_value_call g id) slot.now }
{
    tell(slot, |slot| value_answer(value_of(colour_of(slot), id)))
}

pub fn dt8_colour_status(slot: &[u8]) -> Answer
    ensures { result ≡ told (λ g. colour_status_call g) slot.now }
{
    tell(slot, |slot| Ok(Reply::from(status_of(colour_of(slot)))))
}

pub fn dt8_features(slot: &[u8]) -> Answer
    ensures { result ≡ told (λ g. features_call g) slot.now }
{
    tell(slot, |slot| Ok(Reply::from(features_of(colour_of(slot)))))
}

// Part 209's query 251, which a gear without channels does not answer.
pub fn rgbwaf_control_byte(slot: &[u8]) -> Answer
    ensures { result ≡ told (λ g. control_call g) slot.now }
{
    tell(
        slot,
        |slot| unexplained(value_answer(control_of(colour_of(slot)))),
    )
}

pub fn gear_features_byte(slot: &[u8]) -> Answer
    ensures { result ≡ told (λ g. feature_byte_call g) slot.now }
{
    tell(slot, |slot| Ok(Reply::from(slot[FEATURES])))
}

pub fn automatic_activation(slot: &[u8]) -> Answer
    ensures { result ≡ told (λ g. automatic_call g) slot.now }
{
    tell(slot, |slot| flag(automatic(colour_of(slot))))
}
