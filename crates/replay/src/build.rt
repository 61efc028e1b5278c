// Kind 0, a new gear, and the gear before the first call.
use crate::entry::Entry;
use colour::limits::Range;
use colour::record::Capabilities;
use gear::answer::{Outcome, refused};
use gear::profile::{Profile, Unit};
use gear::record::Gear;
use numbers::bits::bits;

fn profile(entry: Entry) -> Profile {
    let [tc, xy, adjustable, holds, bare, ..] = bits(entry.byte(23));
    Profile {
        unit: Unit {
            short: entry.number(18),
            random: entry.long(19),
            types: entry.array(2),
            count: entry.byte(1),
            adjustable,
            holds,
            bare,
            minimum: entry.byte(29),
        },
        can: Capabilities {
            tc,
            xy,
            channels: entry.byte(24),
        },
        physical: Range {
            coolest: entry.word(25),
            warmest: entry.word(27),
        },
    }
}

// A refused profile leaves the record as it was.
pub fn new_gear(gear: Gear, entry: Entry) -> Outcome {
    let made = Gear::new(profile(entry));
    match made.answer {
        Err(refusal) => refused(gear, refusal),
        Ok(_) => made,
    }
}

// Type 6, no short address, random address 0, no flags, no channels, Tc 153 to 400, physical minimum 1.
pub fn first_gear() -> Gear {
    Gear::new(Profile {
        unit: Unit {
            short: None,
            random: 0,
            types: [6, 0, 0, 0, 0, 0, 0, 0, 0, 0, 0, 0, 0, 0, 0, 0],
            count: 1,
            adjustable: false,
            holds: false,
            bare: false,
            minimum: 1,
        },
        can: Capabilities {
            tc: false,
            xy: false,
            channels: 0,
        },
        physical: Range {
            coolest: 153,
            warmest: 400,
        },
    })
    .gear
}
