// Reading and writing memory locations (part 102, 9.10). A location is two bytes, bank and offset, in that order in every public call;
// of the private functions `writable` alone takes both, and a struct of the two would be made in each call for that one.
ghost use Rattle.std.specs.Prelude.{◌≡◌};
ghost use Rattle.bank.specs.Memory.{identity_location, profile_location, lacks_indicator_byte, memory_location, implements_bank, advances_dtr0_past, profile_writable, writable, stored, write_memory_location};

use crate::build::Banks;
use numbers::entries::stored_at;

pub const MEMORY_BANK_IDENTITY: u8 = 0;

pub const MEMORY_BANK_PROFILE: u8 = 1;

// How many bytes each bank stores.
pub const IDENTITY_LEN: u8 = 29;

pub const PROFILE_LEN: u8 = 17;

// The last offset of bank 1: what its offset 0 answers, and where writing ends.
pub const PROFILE_LAST: u8 = 16;

// Reserved in bank 0, and the indicator byte of any other bank (part 102, tables 8 and 9).
pub const INDICATOR_BYTE: u8 = 1;

// The offset, in bank 1, of the byte that locks the locations after it.
pub const LOCK_BYTE: u8 = 2;

// What the lock byte holds where they are not locked.
pub const UNLOCKED: u8 = 0x55;

// What a write answers, if anything, and the banks after it.
#[derive(Clone, Copy)]
pub struct Written {
    pub answer: Option<u8>,
    pub banks: Banks,
}

// Bank 0 ends at the last offset that it names itself, and offset 1 is reserved (part 102, table 9).
#[tactic(auto, unfolding(crate::specs::Memory::identity_location))]
fn identity_location(identity: [u8; 29], offset: u8) -> Option<u8>
    ensures { result ≡ identity_location identity offset }
{
    if identity[0] < offset || offset == INDICATOR_BYTE {
        return None;
    }
    identity.get(usize::from(offset)).copied()
}

// The last offset of bank 1 is read at offset 0, whatever is stored there.
#[tactic(auto, unfolding(crate::specs::Memory::profile_location))]
fn profile_location(profile: [u8; 17], offset: u8) -> Option<u8>
    ensures { result ≡ profile_location profile offset }
{
    match offset {
        0 => Some(PROFILE_LAST),
        _ => profile.get(usize::from(offset)).copied(),
    }
}

// A `bare` gear implements no indicator byte (part 102, table 8). In bank 0 that offset is reserved on every gear.
#[tactic(auto, unfolding(crate::specs::Memory::lacks_indicator_byte))]
pub fn lacks_indicator_byte(bare: bool, bank: u8, offset: u8) -> bool
    ensures { result ≡ lacks_indicator_byte bare bank offset }
{
    bare && bank != MEMORY_BANK_IDENTITY && offset == INDICATOR_BYTE
}

// What a read of a location answers, if anything (part 102, 9.10.4). Banks above 1 have none.
#[tactic(auto, unfolding(crate::specs::Memory::memory_location))]
pub fn memory_location(banks: Banks, bare: bool, bank: u8, offset: u8) -> Option<u8>
    ensures { result ≡ memory_location banks bare bank offset }
{
    if lacks_indicator_byte(bare, bank, offset) {
        return None;
    }
    match bank {
        MEMORY_BANK_IDENTITY => identity_location(banks.identity, offset),
        MEMORY_BANK_PROFILE => profile_location(banks.profile, offset),
        _ => None,
    }
}

pub fn implements_bank(bank: u8) -> bool
    ensures { result ≡ implements_bank bank }
{
    bank <= MEMORY_BANK_PROFILE
}

// Whether a read moves DTR0 on (part 102, 9.10.4). A gear that `holds` it moves it only past a location that answers.
#[tactic(auto, unfolding(crate::specs::Memory::advances_dtr0_past))]
pub fn advances_dtr0_past(banks: Banks, bare: bool, holds: bool, bank: u8, offset: u8) -> bool
    ensures { result ≡ advances_dtr0_past banks bare holds bank offset }
{
    implements_bank(bank) && (!holds || memory_location(banks, bare, bank, offset).is_some())
}

// Part 102, table 8: the lock byte itself is always writable, and what follows it where it says so.
#[tactic(auto, unfolding(crate::specs::Memory::profile_writable))]
fn profile_writable(profile: [u8; 17], offset: u8) -> bool
    ensures { result ≡ profile_writable profile offset }
{
    (LOCK_BYTE..=PROFILE_LAST).contains(&offset)
        && (offset == LOCK_BYTE || profile[usize::from(LOCK_BYTE)] == UNLOCKED)
}

// Only bank 1 has locations that can be written.
#[tactic(auto, unfolding(crate::specs::Memory::writable))]
fn writable(banks: Banks, bank: u8, offset: u8) -> bool
    ensures { result ≡ writable banks bank offset }
{
    bank == MEMORY_BANK_PROFILE && profile_writable(banks.profile, offset)
}

// `unstored` is an injected fault: nothing is stored, and the write is answered all the same.
#[tactic(auto, unfolding(crate::specs::Memory::stored, crate::specs::Memory::store_profile))]
fn stored(profile: [u8; 17], unstored: bool, offset: u8, value: u8) -> [u8; 17]
    ensures { result ≡ stored profile unstored offset value }
{
    if unstored {
        profile
    } else {
        stored_at(profile, offset, value)
    }
}

// Part 102, 9.10.5. A write is answered with the value, or not at all. Write enable is not asked for.
#[tactic(auto, unfolding(crate::specs::Memory::write_memory_location))]
pub fn write_memory_location(
    banks: Banks,
    unstored: bool,
    bank: u8,
    offset: u8,
    value: u8,
) -> Written
    ensures { result ≡ write_memory_location banks unstored bank offset value }
{
    if writable(banks, bank, offset) {
        Written {
            answer: Some(value),
            banks: banks.with_profile(stored(banks.profile, unstored, offset, value)),
        }
    } else {
        Written {
            answer: None,
            banks,
        }
    }
}
