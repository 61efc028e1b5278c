// Plain reads of a record, on its slot.
ghost use Rattle.std.specs.Prelude.{◌≡◌};
ghost use Rattle.calls.specs.Reads.{status_call, lamp_on_call, failure_bits_call, thermal_call, lamp_failure_call, actual_level_call, type_call};
ghost use Rattle.engine.specs.Served.{told};
ghost use Rattle.query.specs.Lamp.{actual_level, lamp_on};
ghost use Rattle.query.specs.Status.{status_byte};
ghost use Rattle.slot.specs.Record.{colour_of, condition_of, levels_of, marks_of, unit_of};

use crate::serve::{Slot, tell};
use gear::answer::{Answer, Reply, flag};
use gear::condition::Faults;
use query::lamp::{
    actual_level_answer as level_of, lamp_failure_from_207 as fails, lamp_on as lit,
    thermal_shut_down as shut,
};
use query::status::status_byte as status_of;
use slot::parts::{condition_of, levels_of, marks_of, tint_at, unit_of};
use slot::places::{ACTIVE, FAULT_FAILURE};

fn faults_of(slot: &Slot) -> Faults
    ensures { result ≡ (condition_of slot.now).faults }
{
    condition_of(slot).faults
}

// The status byte.
fn status(slot: &Slot) -> u8
    ensures { result ≡ status_byte (unit_of slot.now) (levels_of slot.now) (marks_of slot.now) (condition_of slot.now).lamp (condition_of slot.now).faults }
{
    status_of(
        unit_of(slot),
        levels_of(slot),
        marks_of(slot),
        condition_of(slot),
    )
}

pub fn status_byte(slot: &[u8]) -> Answer
    ensures { result ≡ told (λ g. status_call g) slot.now }
{
    tell(slot, |slot| Ok(Reply::from(status(slot))))
}

// Whether the lamp is on.
fn shines(slot: &Slot) -> bool
    ensures { result ≡ lamp_on (unit_of slot.now) (levels_of slot.now) (condition_of slot.now).lamp (condition_of slot.now).faults }
{
    lit(unit_of(slot), levels_of(slot), condition_of(slot))
}

pub fn lamp_on(slot: &[u8]) -> Answer
    ensures { result ≡ told (λ g. lamp_on_call g) slot.now }
{
    tell(slot, |slot| flag(shines(slot)))
}

// Part 207, bits 0 to 6: short circuit, open circuit, load decrease, load increase, current protector, thermal shut-down,
// thermal overload.
pub fn failure_bits(slot: &[u8]) -> Answer
    ensures { result ≡ told (λ g. failure_bits_call g) slot.now }
{
    tell(slot, |slot| Ok(Reply::from(slot[FAULT_FAILURE] % 128)))
}

pub fn thermal_shut_down(slot: &[u8]) -> Answer
    ensures { result ≡ told (λ g. thermal_call g) slot.now }
{
    tell(slot, |slot| flag(shut(unit_of(slot), faults_of(slot))))
}

pub fn lamp_failure_from_207(slot: &[u8]) -> Answer
    ensures { result ≡ told (λ g. lamp_failure_call g) slot.now }
{
    tell(slot, |slot| flag(fails(unit_of(slot), faults_of(slot))))
}

// The level that the gear tells.
fn level(slot: &Slot) -> u8
    ensures { result ≡ actual_level (unit_of slot.now) (levels_of slot.now) (condition_of slot.now).faults (colour_of slot.now).active }
{
    level_of(
        unit_of(slot),
        levels_of(slot),
        faults_of(slot),
        tint_at(slot, ACTIVE),
    )
}

pub fn actual_level_answer(slot: &[u8]) -> Answer
    ensures { result ≡ told (λ g. actual_level_call g) slot.now }
{
    tell(slot, |slot| Ok(Reply::from(level(slot))))
}

// Whether the type list has a code: 6 LED, 7 switching, 8 colour.
pub fn is_type(slot: &[u8], code: u8) -> Answer
    ensures { result ≡ told (λ g. type_call g code) slot.now }
{
    tell(slot, |slot| flag(unit_of(slot).is_type(code)))
}
