// The digest of a whole record: 426 bytes, every field in the order of oracle/FORMAT.md.
use crate::digest::Digest;
use crate::entry::NONE;
use crate::mode::mode_number;
use colour::limits::Limits;
use colour::record::{Capabilities, Colour};
use colour::tint::Tint;
use gear::condition::Condition;
use gear::marks::Marks;
use gear::profile::Unit;
use gear::record::Gear;
use gear::settings::{Fades, LevelSetting};
use level::levels::Levels;
use query::bits::eight;

impl Digest {
    // The lowest three bytes.
    fn random(self, address: u32) -> Digest {
        let [_, high, middle, low] = address.to_be_bytes();
        self.byte(high).byte(middle).byte(low)
    }

    // The count, and sixteen codes, which past the count are 0.
    fn types(self, unit: Unit) -> Digest {
        unit.types.iter().zip(0..16).fold(
            self.byte(unit.count),
            |sum, (code, at)| sum.byte(if at < unit.count { *code } else { 0 }),
        )
    }

    fn profile(self, unit: Unit, can: Capabilities) -> Digest {
        self.byte(unit.short.unwrap_or(NONE))
            .random(unit.random)
            .types(unit)
            .flag(can.tc)
            .flag(can.xy)
            .flag(unit.adjustable)
            .flag(unit.holds)
            .flag(unit.bare)
            .byte(can.channels)
            .byte(unit.minimum)
    }

    fn levels(self, levels: Levels) -> Digest {
        self.byte(levels.level)
            .byte(levels.last)
            .byte(levels.min)
            .byte(levels.max)
            .flag(levels.error)
    }

    fn stored(self, kept: LevelSetting) -> Digest {
        self.byte(kept.level).setting(kept.colour)
    }

    fn fades(self, fades: Fades) -> Digest {
        self.byte(fades.time).byte(fades.rate).byte(fades.extended)
    }

    // Group 0 is the lowest bit of the second byte.
    fn groups(self, groups: [bool; 16]) -> Digest {
        self.byte(eight(groups, true)).byte(eight(groups, false))
    }

    // The Rust's two arrays: the levels of the entries, and their colours.
    fn scene_levels(self, scenes: [LevelSetting; 16]) -> Digest {
        scenes.iter().fold(self, |sum, entry| sum.byte(entry.level))
    }

    fn scene_colours(self, scenes: [LevelSetting; 16]) -> Digest {
        scenes
            .iter()
            .fold(self, |sum, entry| sum.setting(entry.colour))
    }

    fn lamps(self, condition: Condition) -> Digest {
        let lamp = condition.lamp;
        let faults = condition.faults;
        self.flag(lamp.failure)
            .flag(lamp.starting)
            .word(faults.drop)
            .byte(faults.forced)
            .byte(faults.failure)
            .flag(faults.unstored)
            .flag(faults.holds)
    }

    fn marks(self, marks: Marks, curve: u8) -> Digest {
        self.flag(marks.reset)
            .flag(marks.cycled)
            .flag(marks.initialise)
            .flag(marks.withdrawn)
            .flag(marks.identifying)
            .byte(curve)
            .flag(marks.writable)
            .byte(marks.walk.unwrap_or(NONE))
            .flag(marks.pair.is_some())
            .word(marks.pair.unwrap_or(0))
    }

    fn place(self, tint: Tint) -> Digest {
        self.byte(mode_number(tint.mode))
            .word(tint.x)
            .word(tint.y)
            .word(tint.tc)
    }

    fn channels(self, tint: Tint) -> Digest {
        self.bytes(&tint.levels).byte(tint.control)
    }

    fn limits(self, limits: Limits) -> Digest {
        self.word(limits.stored.coolest)
            .word(limits.stored.warmest)
            .word(limits.physical.coolest)
            .word(limits.physical.warmest)
    }

    fn colour(self, colour: Colour) -> Digest {
        self.place(colour.active)
            .flag(colour.outside)
            .channels(colour.active)
            .place(colour.pending)
            .channels(colour.pending)
            .limits(colour.limits)
            .setting(colour.report)
            .byte(colour.features)
    }
}

pub fn digest(gear: Gear) -> u32 {
    Digest::START
        .profile(gear.unit, gear.colour.can)
        .flag(gear.condition.enabled)
        .levels(gear.levels)
        .stored(gear.settings.on)
        .stored(gear.settings.failure)
        .fades(gear.settings.fades)
        .groups(gear.settings.groups)
        .scene_levels(gear.scenes)
        .lamps(gear.condition)
        .marks(gear.marks, gear.settings.curve)
        .colour(gear.colour)
        .scene_colours(gear.scenes)
        .bytes(&gear.banks.identity)
        .bytes(&gear.banks.profile)
        .number()
}
