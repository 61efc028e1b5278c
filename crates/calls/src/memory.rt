// Memory calls: those of the bank library, under the fit test.
ghost use Rattle.std.specs.Prelude.{◌≡◌};
ghost use Rattle.calls.specs.Memory.{memory_location_call, write_memory_call, advances_call, implements_call, set_lock_call, set_location_call, set_unit_call, set_last_call, clear_number_call};

use bank::memory::{
    advances_dtr0_past as advances, implements_bank as implements, memory_location as location,
    write_memory_location as write_location,
};
use bank::setters::{
    clear_identification_number as clear_number, set_bank0_last_offset as set_last,
    set_bank1_location as set_location, set_bank1_lock_byte as set_lock,
    set_logical_gear_unit as set_unit,
};
use gear::answer::{Answer, Outcome, Refusal, done, flag, location_answer, refused};
use gear::record::Gear;
use gear::serve::tell;

// This and colour's `color_value`, the two that look a place up, are put into their callers: called (tried), a record is copied for each, and they
// take 26 and 23 ns and not 10 and 16.
#[tactic(auto, unfolding(crate::specs::Memory::memory_location_call, gear::specs::Serve::tell))]
#[inline(always)]
pub fn memory_location(gear: Gear, bank: u8, offset: u8) -> Answer
    ensures { result ≡ memory_location_call gear bank offset }
{
    tell(
        gear,
        location_answer(location(gear.banks, gear.unit.bare, bank, offset)),
    )
}

// Write enable is not asked for.
#[tactic(auto, unfolding(crate::specs::Memory::write_memory_call, crate::specs::Memory::rebanked, gear::specs::Serve::serve))]
pub fn write_memory_location(gear: Gear, bank: u8, offset: u8, value: u8) -> Outcome
    ensures { result ≡ write_memory_call gear bank offset value }
{
    if !gear.fit() {
        return refused(gear, Refusal::Unfit);
    }
    let unstored = gear.condition.faults.unstored;
    let written = write_location(gear.banks, unstored, bank, offset, value);
    let mut next = gear;
    next.banks = written.banks;
    Outcome {
        answer: location_answer(written.answer),
        gear: next,
    }
}

#[tactic(auto, unfolding(crate::specs::Memory::advances_call, gear::specs::Serve::tell))]
pub fn advances_dtr0_past(gear: Gear, bank: u8, offset: u8) -> Answer
    ensures { result ≡ advances_call gear bank offset }
{
    tell(
        gear,
        flag(advances(gear.banks, gear.unit.bare, gear.unit.holds, bank, offset)),
    )
}

#[tactic(auto, unfolding(crate::specs::Memory::implements_call, gear::specs::Serve::tell))]
pub fn implements_bank(gear: Gear, bank: u8) -> Answer
    ensures { result ≡ implements_call gear bank }
{
    tell(gear, flag(implements(bank)))
}

#[tactic(auto, unfolding(crate::specs::Memory::set_lock_call, crate::specs::Memory::rebanked, gear::specs::Serve::serve))]
pub fn set_bank1_lock_byte(gear: Gear, value: u8) -> Outcome
    ensures { result ≡ set_lock_call gear value }
{
    if !gear.fit() {
        return refused(gear, Refusal::Unfit);
    }
    let mut next = gear;
    next.banks = set_lock(next.banks, value);
    done(next)
}

#[tactic(auto, unfolding(crate::specs::Memory::set_location_call, crate::specs::Memory::rebanked, gear::specs::Serve::serve))]
pub fn set_bank1_location(gear: Gear, offset: u8, value: u8) -> Outcome
    ensures { result ≡ set_location_call gear offset value }
{
    if !gear.fit() {
        return refused(gear, Refusal::Unfit);
    }
    let mut next = gear;
    next.banks = set_location(next.banks, offset, value);
    done(next)
}

#[tactic(auto, unfolding(crate::specs::Memory::set_unit_call, crate::specs::Memory::rebanked, gear::specs::Serve::serve))]
pub fn set_logical_gear_unit(gear: Gear, units: u8, index: u8) -> Outcome
    ensures { result ≡ set_unit_call gear units index }
{
    if !gear.fit() {
        return refused(gear, Refusal::Unfit);
    }
    let mut next = gear;
    next.banks = set_unit(next.banks, units, index);
    done(next)
}

#[tactic(auto, unfolding(crate::specs::Memory::set_last_call, crate::specs::Memory::rebanked, gear::specs::Serve::serve))]
pub fn set_bank0_last_offset(gear: Gear, last: u8) -> Outcome
    ensures { result ≡ set_last_call gear last }
{
    if !gear.fit() {
        return refused(gear, Refusal::Unfit);
    }
    let mut next = gear;
    next.banks = set_last(next.banks, last);
    done(next)
}

#[tactic(auto, unfolding(crate::specs::Memory::clear_number_call, crate::specs::Memory::rebanked, gear::specs::Serve::serve))]
pub fn clear_identification_number(gear: Gear) -> Outcome
    ensures { result ≡ clear_number_call gear }
{
    if !gear.fit() {
        return refused(gear, Refusal::Unfit);
    }
    let mut next = gear;
    next.banks = clear_number(next.banks);
    done(next)
}
