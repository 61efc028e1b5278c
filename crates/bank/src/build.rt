// Both memory banks, and how a gear leaves the factory with them.
ghost use Rattle.std.specs.Prelude.{◌≡◌};
ghost use Rattle.bank.specs.Build.{with_identity, with_profile, build_bank0, build_bank1, build};

use crate::memory::{LOCK_BYTE, PROFILE_LAST, UNLOCKED};

// Bank 0 identifies the gear, and bank 1 is its maker's profile. A location of a bank is called by its offset.
#[derive(Clone, Copy)]
pub struct Banks {
    pub identity: [u8; 29],
    pub profile: [u8; 17],
}

impl Banks {
    // Both banks of a new gear with this random address.
    #[tactic(auto, unfolding(crate::specs::Build::build))]
    pub fn build(random: u32) -> Banks
        ensures { result ≡ build random }
    {
        Banks {
            identity: build_bank0(random),
            profile: build_bank1(random),
        }
    }

    pub fn with_identity(self, identity: [u8; 29]) -> Banks
        ensures { result ≡ with_identity self identity }
    {
        Banks { identity, ..self }
    }

    pub fn with_profile(self, profile: [u8; 17]) -> Banks
        ensures { result ≡ with_profile self profile }
    {
        Banks { profile, ..self }
    }
}

// Part 102, table 9: the random address is in the GTIN and in the identification number, which is a sum and can carry.
#[tactic(auto, unfolding(crate::specs::Build::build_bank0))]
pub fn build_bank0(random: u32) -> [u8; 29]
    ensures { result ≡ build_bank0 random }
{
    let gtin = (0x4000_0000_0000 + u64::from(random)).to_be_bytes();
    let serial = (0x5EED_0000 + u64::from(random)).to_be_bytes();
    let mut bank = [
        // The last offset, a reserved byte, the last bank; room for the GTIN.
        26, 0, 1, 0, 0, 0, 0, 0, 0,
        // The firmware's version; room for the identification number.
        1, 4, 0, 0, 0, 0, 0, 0, 0, 0,
        // The hardware's version; the versions of parts 101, 102 and 103.
        2, 0, 8, 8, 0,
        // Logical units: none that controls, one gear, and its index.
        0, 1, 0,
        // Beyond the last offset.
        0, 0,
    ];
    bank[3..9].copy_from_slice(&gtin[2..]);
    bank[11..19].copy_from_slice(&serial);
    bank
}

// Part 102, table 10: the maker's own GTIN and identification number; the second is the random address, moved up a byte.
#[tactic(auto, unfolding(crate::specs::Build::build_bank1))]
pub fn build_bank1(random: u32) -> [u8; 17]
    ensures { result ≡ build_bank1 random }
{
    let gtin = (0x0EE0_0000_0000 + u64::from(random)).to_be_bytes();
    let serial = (u64::from(random) * 256).to_be_bytes();
    let mut bank = [0; 17];
    bank[0] = PROFILE_LAST;
    bank[usize::from(LOCK_BYTE)] = UNLOCKED;
    bank[3..9].copy_from_slice(&gtin[2..]);
    bank[9..].copy_from_slice(&serial);
    bank
}
