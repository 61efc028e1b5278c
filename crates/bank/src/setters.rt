// What is set in the banks from outside, past the lock byte and in bank 0 too.
ghost use Rattle.std.specs.Prelude.{◌≡◌};
ghost use Rattle.bank.specs.Setters.{set_bank1_lock_byte, set_bank1_location, set_logical_gear_unit, set_bank0_last_offset, cleared, clear_identification_number};

use crate::build::Banks;
use crate::memory::LOCK_BYTE;
use numbers::entries::stored_at;

#[tactic(auto, unfolding(crate::specs::Setters::set_bank1_lock_byte))]
pub fn set_bank1_lock_byte(banks: Banks, value: u8) -> Banks
    ensures { result ≡ set_bank1_lock_byte banks value }
{
    banks.with_profile(stored_at(banks.profile, LOCK_BYTE, value))
}

// Offsets past the bank do nothing; at offset 0 it stores a byte that no read shows.
#[tactic(auto, unfolding(crate::specs::Setters::set_bank1_location, crate::specs::Memory::store_profile))]
pub fn set_bank1_location(banks: Banks, offset: u8, value: u8) -> Banks
    ensures { result ≡ set_bank1_location banks offset value }
{
    banks.with_profile(stored_at(banks.profile, offset, value))
}

// How many logical units the gear has, and which of them it is (part 102, table 9).
#[tactic(auto, unfolding(crate::specs::Setters::set_logical_gear_unit))]
pub fn set_logical_gear_unit(banks: Banks, units: u8, index: u8) -> Banks
    ensures { result ≡ set_logical_gear_unit banks units index }
{
    banks.with_identity(stored_at(stored_at(banks.identity, 25, units), 26, index))
}

#[tactic(auto, unfolding(crate::specs::Setters::set_bank0_last_offset))]
pub fn set_bank0_last_offset(banks: Banks, last: u8) -> Banks
    ensures { result ≡ set_bank0_last_offset banks last }
{
    banks.with_identity(stored_at(banks.identity, 0, last))
}

// The identification number (part 102, table 9) becomes all masks.
fn cleared(mut identity: [u8; 29]) -> [u8; 29]
    ensures { result ≡ cleared identity }
{
    identity[11..19].fill(255);
    identity
}

#[tactic(auto, unfolding(crate::specs::Setters::clear_identification_number))]
pub fn clear_identification_number(banks: Banks) -> Banks
    ensures { result ≡ clear_identification_number banks }
{
    banks.with_identity(cleared(banks.identity))
}
