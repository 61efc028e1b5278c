// What the lamp does, and what part 207 says of it.
ghost use Rattle.std.specs.Prelude.{◌≡◌, false, eqb};
ghost use Rattle.std.specs.Int.Bits.{bit_and};
ghost use Rattle.numbers.specs.Numbers.{pick};
ghost use Rattle.gear.specs.Profile.{is_type};
ghost use Rattle.query.specs.Lamp.{thermal_shut_down, lamp_failure_from207, lamp_on, overheated, one_linked, shows_level, actual_level};

use colour::tint::{ColorMode, Tint};
use gear::condition::{Condition, Faults};
use gear::profile::Unit;
use level::levels::Levels;

// The bits of part 207: short circuit, open circuit, load decrease, load increase and current protector; and the two thermal ones.
const FAILED: u8 = 31;

const SHUT_DOWN: u8 = 32;

const OVERHEATED: u8 = 32 | 64;

// A LED gear has one of these faults. Of the condition the faults alone are taken: the lamp's own marks say nothing here.
fn led_fault(unit: Unit, faults: Faults, mask: u8) -> bool
    ensures { result ≡ pick (eqb (bit_and faults.failure mask) 0) false (is_type unit 6) }
{
    faults.failure & mask != 0 && unit.is_dt6()
}

// Part 207: a LED gear that shut down for heat.
#[tactic(auto, unfolding(crate::specs::Lamp::thermal_shut_down), using(crate::proofs::Masks::shut_down))]
pub fn thermal_shut_down(unit: Unit, faults: Faults) -> bool
    ensures { result ≡ thermal_shut_down unit faults }
{
    led_fault(unit, faults, SHUT_DOWN)
}

// Part 207, 11.3.4.2: any of the first five.
#[tactic(auto, unfolding(crate::specs::Lamp::lamp_failure_from207), using(crate::proofs::Masks::failed))]
pub fn lamp_failure_from_207(unit: Unit, faults: Faults) -> bool
    ensures { result ≡ lamp_failure_from207 unit faults }
{
    led_fault(unit, faults, FAILED)
}

// Part 102, 9.16.4. Here, in `actual_level_answer` and in `status_byte` the parts come one by one: a `Seen`, a record and a slot have
// them at different places, and a struct of them would be built for each call and read once.
#[tactic(auto, unfolding(crate::specs::Lamp::lamp_on))]
pub fn lamp_on(unit: Unit, levels: Levels, condition: Condition) -> bool
    ensures { result ≡ lamp_on unit levels condition.lamp condition.faults }
{
    let lamp = condition.lamp;
    levels.level != 0
        && !lamp.starting
        && !lamp.failure
        && !thermal_shut_down(unit, condition.faults)
}

// A LED gear that shut down or throttled for heat.
#[tactic(auto, unfolding(crate::specs::Lamp::overheated), using(crate::proofs::Masks::overheated))]
fn overheated(unit: Unit, faults: Faults) -> bool
    ensures { result ≡ overheated unit faults }
{
    led_fault(unit, faults, OVERHEATED)
}

// Exactly one of the six channels is linked.
#[tactic(auto, unfolding(crate::specs::Lamp::one_linked))]
fn one_linked(control: u8) -> bool
    ensures { result ≡ one_linked control }
{
    matches!(control % 64, 1 | 2 | 4 | 8 | 16 | 32)
}

// Part 209, 11.3.2: a RGBWAF colour has a level to show where one channel is linked or the control is normalised.
#[tactic(auto, unfolding(crate::specs::Lamp::shows_level))]
fn shows_level(active: Tint) -> bool
    ensures { result ≡ shows_level active }
{
    match active.mode {
        ColorMode::None | ColorMode::Xy | ColorMode::Cct => true,
        ColorMode::Rgb => active.control / 64 == 2 || one_linked(active.control),
    }
}

// The level that the gear tells, or 255.
#[tactic(auto, unfolding(crate::specs::Lamp::actual_level))]
pub fn actual_level_answer(unit: Unit, levels: Levels, faults: Faults, active: Tint) -> u8
    ensures { result ≡ actual_level unit levels faults active }
{
    if !overheated(unit, faults) && shows_level(active) {
        levels.level
    } else {
        255
    }
}
