// Memory locations of a slot (part 102, 9.10), each in its place among the bytes. bank's functions, of the same rules, take both banks by
// value: to call them, 46 bytes would be copied out of the slot for one byte, and for a store written back. Bank and offset are apart, as
// the public calls and bank's rules have them: a struct would be made in each call, and taken apart in each function.
ghost use Rattle.std.specs.Prelude.{◌≡◌};
ghost use Rattle.bank.specs.Memory.{advances_dtr0_past, identity_location, lacks_indicator_byte, memory_location, profile_location, writable};
ghost use Rattle.bank.specs.Setters.{clear_identification_number, set_bank1_location};
ghost use Rattle.calls.specs.Memory.{advances_call, clear_number_call, implements_call, memory_location_call, set_last_call, set_location_call, set_lock_call, set_unit_call, write_memory_call};
ghost use Rattle.engine.specs.Served.{Served, told};
ghost use Rattle.engine.specs.Works.{Works, write_location};
ghost use Rattle.gear.specs.Answer.{location_answer};
ghost use Rattle.gear.specs.Parts.{with_banks};
ghost use Rattle.slot.specs.Held.{Does, Tells};

use crate::serve::{Slot, change, serve, tell};
use bank::memory::{
    IDENTITY_LEN, INDICATOR_BYTE, LOCK_BYTE, MEMORY_BANK_IDENTITY, MEMORY_BANK_PROFILE,
    PROFILE_LAST, PROFILE_LEN, UNLOCKED, implements_bank as implements, lacks_indicator_byte,
};
use gear::answer::{Answer, Reply, flag as yes_or_no, location_answer};
use slot::bytes::flag;
use slot::places::{BARE, FAULT_UNSTORED, HOLDS, IDENTITY, PROFILE};

// In bank 0 (part 102, table 9): the identification number, how many logical units the gear has, and which of them it is.
const NUMBER: usize = IDENTITY + 11;

const NUMBER_LEN: usize = 8;

const UNITS: usize = IDENTITY + 25;

const UNIT_INDEX: usize = IDENTITY + 26;

// Bank 0 ends at the last offset that it names itself, and offset 1 is reserved (part 102, table 9).
#[tactic(auto, using(slot::proofs::Indexed::identity_read), unfolding(bank::specs::Memory::identity_location))]
fn identity_location(slot: &Slot, offset: u8) -> Option<u8>
    ensures { Tells (λ g. identity_location g.banks.identity offset) slot.now result }
{
    if slot[IDENTITY] < offset || offset == INDICATOR_BYTE || IDENTITY_LEN <= offset {
        return None;
    }
    Some(slot[IDENTITY + usize::from(offset)])
}

// The last offset of bank 1 is read at offset 0, whatever is stored there.
#[tactic(auto, using(slot::proofs::Indexed::profile_read), unfolding(bank::specs::Memory::profile_location))]
fn profile_location(slot: &Slot, offset: u8) -> Option<u8>
    ensures { Tells (λ g. profile_location g.banks.profile offset) slot.now result }
{
    match offset {
        0 => Some(PROFILE_LAST),
        PROFILE_LEN.. => None,
        _ => Some(slot[PROFILE + usize::from(offset)]),
    }
}

fn lacks_indicator(slot: &Slot, bank: u8, offset: u8) -> bool
    ensures { Tells (λ g. lacks_indicator_byte g.unit.bare bank offset) slot.now result }
{
    lacks_indicator_byte(flag(slot, BARE), bank, offset)
}

#[tactic(auto, unfolding(bank::specs::Memory::memory_location))]
fn found(slot: &Slot, bank: u8, offset: u8) -> Option<u8>
    ensures { Tells (λ g. memory_location g.banks g.unit.bare bank offset) slot.now result }
{
    if lacks_indicator(slot, bank, offset) {
        return None;
    }
    match bank {
        MEMORY_BANK_IDENTITY => identity_location(slot, offset),
        MEMORY_BANK_PROFILE => profile_location(slot, offset),
        _ => None,
    }
}

pub(crate) fn location(slot: &Slot, bank: u8, offset: u8) -> Answer
    ensures { Tells (λ g. location_answer (memory_location g.banks g.unit.bare bank offset)) slot.now result }
{
    location_answer(found(slot, bank, offset))
}

// Whether a read moves DTR0 on. A gear that holds it moves it only past a location that answers.
#[tactic(auto, unfolding(bank::specs::Memory::advances_dtr0_past, slot::specs::Record::gear_of))]
pub(crate) fn advances(slot: &Slot, bank: u8, offset: u8) -> bool
    ensures { Tells (λ g. advances_dtr0_past g.banks g.unit.bare g.unit.holds bank offset) slot.now result }
{
    implements(bank) && (!flag(slot, HOLDS) || found(slot, bank, offset).is_some())
}

// Part 102, table 8: the lock byte itself is always writable, and what follows it where it says so.
#[tactic(auto, using(slot::proofs::Indexed::profile_read), unfolding(bank::specs::Memory::writable, bank::specs::Memory::profile_writable))]
fn is_writable(slot: &Slot, bank: u8, offset: u8) -> bool
    ensures { Tells (λ g. writable g.banks bank offset) slot.now result }
{
    bank == MEMORY_BANK_PROFILE
        && (LOCK_BYTE..=PROFILE_LAST).contains(&offset)
        && (offset == LOCK_BYTE || slot[PROFILE + usize::from(LOCK_BYTE)] == UNLOCKED)
}

// Offsets past the bank store nothing.
#[tactic(auto, unfolding(bank::specs::Setters::set_bank1_location, bank::specs::Memory::store_profile))]
fn store_profile(slot: &mut Slot, offset: u8, value: u8)
    ensures { Does (λ g. with_banks g (set_bank1_location g.banks offset value)) slot.old slot.new }
{
    if offset < PROFILE_LEN {
        slot[PROFILE + usize::from(offset)] = value;
    }
}

// A fault can keep the value from being stored: the write is answered all the same. Write enable is not asked for.
#[tactic(auto, unfolding(crate::specs::Works::write_location, bank::specs::Memory::write_memory_location, gear::specs::Answer::location_answer))]
pub(crate) fn write_location(slot: &mut Slot, bank: u8, offset: u8, value: u8) -> Answer
    ensures { Works (λ g. write_location g bank offset value) slot.old slot.new result }
{
    if !is_writable(slot, bank, offset) {
        return Ok(Reply::Nothing);
    }
    if !flag(slot, FAULT_UNSTORED) {
        store_profile(slot, offset, value);
    }
    Ok(Reply::from(value))
}

pub fn memory_location(slot: &[u8], bank: u8, offset: u8) -> Answer
    ensures { result ≡ told (λ g. memory_location_call g bank offset) slot.now }
{
    tell(slot, |slot| location(slot, bank, offset))
}

pub fn write_memory_location(slot: &mut [u8], bank: u8, offset: u8, value: u8) -> Answer
    ensures { Served (λ g. write_memory_call g bank offset value) slot.old slot.new result }
{
    serve(slot, |slot| write_location(slot, bank, offset, value))
}

pub fn advances_dtr0_past(slot: &[u8], bank: u8, offset: u8) -> Answer
    ensures { result ≡ told (λ g. advances_call g bank offset) slot.now }
{
    tell(slot, |slot| yes_or_no(advances(slot, bank, offset)))
}

pub fn implements_bank(slot: &[u8], bank: u8) -> Answer
    ensures { result ≡ told (λ g. implements_call g bank) slot.now }
{
    tell(slot, |slot| yes_or_no(implements(bank)))
}

pub fn set_bank1_lock_byte(slot: &mut [u8], value: u8) -> Answer
    ensures { Served (λ g. set_lock_call g value) slot.old slot.new result }
{
    change(slot, |slot| store_profile(slot, LOCK_BYTE, value))
}

// Offsets past the bank do nothing; at offset 0 it stores a byte that no read shows.
pub fn set_bank1_location(slot: &mut [u8], offset: u8, value: u8) -> Answer
    ensures { Served (λ g. set_location_call g offset value) slot.old slot.new result }
{
    change(slot, |slot| store_profile(slot, offset, value))
}

// How many logical units the gear has, and which of them it is (part 102, table 9).
pub fn set_logical_gear_unit(slot: &mut [u8], units: u8, index: u8) -> Answer
    ensures { Served (λ g. set_unit_call g units index) slot.old slot.new result }
{
    change(slot, |slot| {
        slot[UNITS] = units;
        slot[UNIT_INDEX] = index;
    })
}

pub fn set_bank0_last_offset(slot: &mut [u8], last: u8) -> Answer
    ensures { Served (λ g. set_last_call g last) slot.old slot.new result }
{
    change(slot, |slot| slot[IDENTITY] = last)
}

// The identification number (part 102, table 9) becomes all masks.
fn clear_number(slot: &mut Slot)
    ensures { Does (λ g. with_banks g (clear_identification_number g.banks)) slot.old slot.new }
{
    slot[NUMBER..NUMBER + NUMBER_LEN].fill(0xFF);
}

pub fn clear_identification_number(slot: &mut [u8]) -> Answer
    ensures { Served clear_number_call slot.old slot.new result }
{
    change(slot, clear_number)
}
