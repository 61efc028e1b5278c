// What a gear is built from.
ghost use Rattle.std.specs.Prelude.{◌≡◌};
ghost use Rattle.gear.specs.Profile.{is_type, floor, fixed, unit_fit, no_profile, accepted};

use colour::limits::Range;
use colour::record::Capabilities;

// What a profile fixes for good.
#[derive(Clone, Copy)]
pub struct Unit {
    // One of 64 short addresses, or none.
    pub short: Option<u8>,
    pub random: u32,
    // Sixteen entries, of which the first `count` are meant: no heap (document 01's form of the Rust's Vec).
    pub types: [u8; 16],
    pub count: u8,
    // A switching gear whose thresholds can be adjusted.
    pub adjustable: bool,
    // DTR0 stays where a memory location is not implemented.
    pub holds: bool,
    // The indicator byte of bank 1 is not implemented.
    pub bare: bool,
    pub minimum: u8,
}

#[derive(Clone, Copy)]
pub struct Profile {
    pub unit: Unit,
    pub can: Capabilities,
    // The physical limits of a colour temperature.
    pub physical: Range,
}

pub const LED: u8 = 6;

pub const SWITCHING: u8 = 7;

pub const COLOUR: u8 = 8;

// The most types of a profile, and of a record.
pub const PROFILE_TYPES: u8 = 13;

pub const RECORD_TYPES: u8 = 16;

impl Unit {
    #[tactic(auto, unfolding(crate::specs::Profile::is_type))]
    pub fn is_type(self, code: u8) -> bool
        ensures { result ≡ is_type self code }
    {
        self.types
            .iter()
            .take(usize::from(self.count))
            .any(|other| *other == code)
    }

    // The Rust's three names for the test of a code.
    pub fn is_dt6(self) -> bool
        ensures { result ≡ is_type self 6 }
    {
        self.is_type(LED)
    }

    pub(crate) fn is_dt7(self) -> bool
        ensures { result ≡ is_type self 7 }
    {
        self.is_type(SWITCHING)
    }

    pub fn is_dt8(self) -> bool
        ensures { result ≡ is_type self 8 }
    {
        self.is_type(COLOUR)
    }

    // Part 208, table 2: a switching gear goes down to 1.
    #[tactic(auto, unfolding(crate::specs::Profile::floor))]
    pub fn min_level_floor(self) -> u8
        ensures { result ≡ floor self }
    {
        if self.is_dt7() { 1 } else { self.minimum }
    }

    // Part 208, 9.4: the lowest level of a switching gear is fixed, unless its thresholds are adjustable.
    #[tactic(auto, unfolding(crate::specs::Profile::fixed))]
    pub(crate) fn levels_fixed(self) -> bool
        ensures { result ≡ fixed self }
    {
        !self.adjustable && self.is_dt7()
    }

    // Document 01's limits on a profile, with at most `most` types.
    #[tactic(auto, unfolding(crate::specs::Profile::short_fit, crate::specs::Profile::unit_fit))]
    pub(crate) fn fit(self, most: u8) -> bool
        ensures { result ≡ unit_fit most self }
    {
        self.count <= most
            && self.random <= 16777215
            && (1..=254).contains(&self.minimum)
            && self.short.is_none_or(|address| address <= 63)
    }
}

impl Profile {
    // A profile that is not accepted: its physical minimum is 0.
    pub fn none() -> Profile
        ensures { result ≡ no_profile }
    {
        Profile {
            unit: Unit {
                short: None,
                random: 0,
                types: [0; 16],
                count: 0,
                adjustable: false,
                holds: false,
                bare: false,
                minimum: 0,
            },
            can: Capabilities {
                tc: false,
                xy: false,
                channels: 0,
            },
            physical: Range {
                coolest: 0,
                warmest: 0,
            },
        }
    }

    #[tactic(auto, unfolding(crate::specs::Profile::accepted))]
    pub fn accepted(self) -> bool
        ensures { result ≡ accepted self }
    {
        self.can.channels <= 6
            && (self.physical.coolest..65535).contains(&self.physical.warmest)
            && self.unit.fit(PROFILE_TYPES)
    }
}
