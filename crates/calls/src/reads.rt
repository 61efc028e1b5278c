// Plain reads of a record, under the fit test.
ghost use Rattle.std.specs.Prelude.{◌≡◌, Ok};
ghost use Rattle.calls.specs.Reads.{status_call, lamp_on_call, failure_bits_call, thermal_call, lamp_failure_call, actual_level_call, type_call};
ghost use Rattle.gear.specs.declared.answer.Reply.TheVariants.{Value};
ghost use Rattle.gear.specs.Serve.{tell};

use gear::answer::{Answer, Reply, flag};
use gear::record::Gear;
use gear::serve::tell;
use query::lamp::{
    actual_level_answer as level_of, lamp_failure_from_207 as fails, lamp_on as lit,
    thermal_shut_down as shut,
};
use query::status::status_byte as status_of;

// A byte of a fit record. Put into each call, as `tell` is.
#[inline(always)]
pub(crate) fn tell_byte(gear: Gear, byte: u8) -> Answer
    ensures { result ≡ tell gear (Ok (Value byte)) }
{
    tell(gear, Ok(Reply::from(byte)))
}

#[tactic(auto, unfolding(crate::specs::Reads::status_call))]
pub fn status_byte(gear: Gear) -> Answer
    ensures { result ≡ status_call gear }
{
    let status = status_of(gear.unit, gear.levels, gear.marks, gear.condition);
    tell_byte(gear, status)
}

#[tactic(auto, unfolding(crate::specs::Reads::lamp_on_call, gear::specs::Serve::tell))]
pub fn lamp_on(gear: Gear) -> Answer
    ensures { result ≡ lamp_on_call gear }
{
    tell(gear, flag(lit(gear.unit, gear.levels, gear.condition)))
}

// Part 207, bits 0 to 6: short circuit, open circuit, load decrease, load increase, current protector, thermal shut-down,
// thermal overload.
#[tactic(auto, unfolding(crate::specs::Reads::failure_bits_call))]
pub fn failure_bits(gear: Gear) -> Answer
    ensures { result ≡ failure_bits_call gear }
{
    tell_byte(gear, gear.condition.faults.failure % 128)
}

#[tactic(auto, unfolding(crate::specs::Reads::thermal_call, gear::specs::Serve::tell))]
pub fn thermal_shut_down(gear: Gear) -> Answer
    ensures { result ≡ thermal_call gear }
{
    tell(gear, flag(shut(gear.unit, gear.condition.faults)))
}

#[tactic(auto, unfolding(crate::specs::Reads::lamp_failure_call, gear::specs::Serve::tell))]
pub fn lamp_failure_from_207(gear: Gear) -> Answer
    ensures { result ≡ lamp_failure_call gear }
{
    tell(gear, flag(fails(gear.unit, gear.condition.faults)))
}

#[tactic(auto, unfolding(crate::specs::Reads::actual_level_call))]
pub fn actual_level_answer(gear: Gear) -> Answer
    ensures { result ≡ actual_level_call gear }
{
    let faults = gear.condition.faults;
    let level = level_of(gear.unit, gear.levels, faults, gear.colour.active);
    tell_byte(gear, level)
}

// Whether the type list has a code: 6 LED, 7 switching, 8 colour.
#[tactic(auto, unfolding(crate::specs::Reads::type_call, gear::specs::Serve::tell))]
pub fn is_type(gear: Gear, code: u8) -> Answer
    ensures { result ≡ type_call gear code }
{
    tell(gear, flag(gear.unit.is_type(code)))
}
