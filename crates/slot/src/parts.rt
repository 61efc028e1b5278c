// Parts of a record, as they stand in a slot.
ghost use Rattle.std.specs.Prelude.{◌≡◌, drop};
ghost use Rattle.slot.specs.Record.{banks_of, bytes_from, colour_in, colour_of, condition_of, flags_from, gear_of, levels_of, limits_of, marks_of, scene_place, setting_in, settings_in, settings_of, short_of, tint_of, unit_of, walk_of};

use crate::bytes::{behind, byte, bytes_from, flag, word};
use crate::places::{
    ACTIVE, ADJUSTABLE, BARE, CAN_TC, CAN_XY, CHANNEL_COUNT, CHANNEL_LEVELS, CONTROL, COOLEST,
    CURVE, CYCLED, ENABLED, EXTENDED_FADE, FADE_RATE, FADE_TIME, FAILURE, FAULT_DROP,
    FAULT_FAILURE, FAULT_FORCED, FAULT_HOLDS, FAULT_UNSTORED, FEATURES, FRAME, GROUPS, HOLDS,
    IDENTIFYING, IDENTITY, INITIALISE, KIND, LAMP_FAILURE, LAMP_STARTING, LAST_LEVEL, LEVEL,
    LIMIT_ERROR, MAX_LEVEL, MIN_LEVEL, MINIMUM, ON, OUTSIDE, PAIR, PHYSICAL_COOLEST,
    PHYSICAL_WARMEST, PROFILE, RANDOM, REPORT, RESET_STATE, SCENES, SETTING_LEN, SETTING_LEVEL,
    SHORT, STAGED, TC, TYPE_COUNT, TYPES, WALK, WARMEST, WITHDRAWN, WRITABLE, X, Y,
};
use bank::build::Banks;
use colour::limits::{Limits, Range};
use colour::record::{Capabilities, Colour};
use colour::setting::ColourSetting;
use colour::tint::{ColorMode, Tint};
use gear::condition::{Condition, Faults, Lamp};
use gear::marks::Marks;
use gear::profile::Unit;
use gear::record::Gear;
use gear::settings::{Fades, LevelSetting, Settings};
use level::levels::Levels;
use std::array;

// The bytes that stand for no short address and for no walk: each is past the last that has a meaning.
pub(crate) const NO_ADDRESS: u8 = 64;

pub const WALK_OFF: u8 = 17;

// This and the next are `then_some`, each below its own number: one for both would be that, renamed.
pub fn short_of(number: u8) -> Option<u8>
    ensures { result ≡ short_of number }
{
    (number < NO_ADDRESS).then_some(number)
}

fn walk_of(number: u8) -> Option<u8>
    ensures { result ≡ walk_of number }
{
    (number < WALK_OFF).then_some(number)
}

pub fn levels_of(slot: &[u8]) -> Levels
    ensures { result ≡ levels_of slot.now }
{
    Levels {
        level: byte(slot, LEVEL),
        last: byte(slot, LAST_LEVEL),
        min: byte(slot, MIN_LEVEL),
        max: byte(slot, MAX_LEVEL),
        error: flag(slot, LIMIT_ERROR),
    }
}

pub fn limits_of(slot: &[u8]) -> Limits
    ensures { result ≡ limits_of slot.now }
{
    Limits {
        stored: Range {
            coolest: word(slot, COOLEST),
            warmest: word(slot, WARMEST),
        },
        physical: Range {
            coolest: word(slot, PHYSICAL_COOLEST),
            warmest: word(slot, PHYSICAL_WARMEST),
        },
    }
}

// The colour at the front of a part.
fn colour_in(part: &[u8]) -> ColourSetting
    ensures { result ≡ colour_in part.now }
{
    ColourSetting {
        kind: byte(part, KIND),
        control: byte(part, CONTROL),
        x: word(part, X),
        y: word(part, Y),
        tc: word(part, TC),
        levels: bytes_from(part, CHANNEL_LEVELS),
    }
}

// The same with its mode.
fn tint_in(part: &[u8]) -> Tint
    ensures { result ≡ tint_of (colour_in part.now) }
{
    let ColourSetting {
        kind,
        control,
        x,
        y,
        tc,
        levels,
    } = colour_in(part);
    Tint {
        mode: ColorMode::from(kind),
        x,
        y,
        tc,
        levels,
        control,
    }
}

// The level behind its colour.
fn setting_in(part: &[u8]) -> LevelSetting
    ensures { result ≡ setting_in part.now }
{
    LevelSetting {
        colour: colour_in(part),
        level: byte(part, SETTING_LEVEL),
    }
}

pub fn colour_at(slot: &[u8], place: usize) -> ColourSetting
    ensures { result ≡ colour_in (drop place slot.now) }
{
    colour_in(behind(slot, place))
}

pub fn tint_at(slot: &[u8], place: usize) -> Tint
    ensures { result ≡ tint_of (colour_in (drop place slot.now)) }
{
    tint_in(behind(slot, place))
}

pub fn setting_at(slot: &[u8], place: usize) -> LevelSetting
    ensures { result ≡ setting_in (drop place slot.now) }
{
    setting_in(behind(slot, place))
}

pub fn unit_of(slot: &[u8]) -> Unit
    ensures { result ≡ unit_of slot.now }
{
    Unit {
        short: short_of(byte(slot, SHORT)),
        random: u32::from_le_bytes(bytes_from(slot, RANDOM)),
        types: bytes_from(slot, TYPES),
        count: byte(slot, TYPE_COUNT),
        adjustable: flag(slot, ADJUSTABLE),
        holds: flag(slot, HOLDS),
        bare: flag(slot, BARE),
        minimum: byte(slot, MINIMUM),
    }
}

pub fn marks_of(slot: &[u8]) -> Marks
    ensures { result ≡ marks_of slot.now }
{
    Marks {
        walk: walk_of(byte(slot, WALK)),
        pair: flag(slot, PAIR).then_some(word(slot, FRAME)),
        reset: flag(slot, RESET_STATE),
        cycled: flag(slot, CYCLED),
        initialise: flag(slot, INITIALISE),
        withdrawn: flag(slot, WITHDRAWN),
        identifying: flag(slot, IDENTIFYING),
        writable: flag(slot, WRITABLE),
    }
}

pub fn colour_of(slot: &[u8]) -> Colour
    ensures { result ≡ colour_of slot.now }
{
    Colour {
        can: Capabilities {
            tc: flag(slot, CAN_TC),
            xy: flag(slot, CAN_XY),
            channels: byte(slot, CHANNEL_COUNT),
        },
        limits: limits_of(slot),
        active: tint_at(slot, ACTIVE),
        outside: flag(slot, OUTSIDE),
        pending: tint_at(slot, STAGED),
        report: colour_at(slot, REPORT),
        features: byte(slot, FEATURES),
    }
}

pub fn condition_of(slot: &[u8]) -> Condition
    ensures { result ≡ condition_of slot.now }
{
    Condition {
        enabled: flag(slot, ENABLED),
        lamp: Lamp {
            failure: flag(slot, LAMP_FAILURE),
            starting: flag(slot, LAMP_STARTING),
        },
        faults: Faults {
            drop: word(slot, FAULT_DROP),
            forced: byte(slot, FAULT_FORCED),
            failure: byte(slot, FAULT_FAILURE),
            unstored: flag(slot, FAULT_UNSTORED),
            holds: flag(slot, FAULT_HOLDS),
        },
    }
}

fn banks_of(slot: &[u8]) -> Banks
    ensures { result ≡ banks_of slot.now }
{
    Banks {
        identity: bytes_from(slot, IDENTITY),
        profile: bytes_from(slot, PROFILE),
    }
}

pub fn groups_of(slot: &[u8]) -> [bool; 16]
    ensures { result ≡ flags_from 16 32 slot.now }
{
    array::from_fn(|i| flag(slot, GROUPS + i))
}

pub fn fades_of(slot: &[u8]) -> Fades
    ensures { result ≡ (settings_of slot.now).fades }
{
    Fades {
        time: byte(slot, FADE_TIME),
        rate: byte(slot, FADE_RATE),
        extended: byte(slot, EXTENDED_FADE),
    }
}

fn settings_of(slot: &[u8]) -> Settings
    ensures { result ≡ settings_of slot.now }
{
    Settings {
        on: setting_at(slot, ON),
        failure: setting_at(slot, FAILURE),
        fades: fades_of(slot),
        groups: groups_of(slot),
        curve: byte(slot, CURVE),
    }
}

// Where a scene stands: a colour and its level, behind those for system failure.
pub fn scene_place(scene: u8) -> usize
    ensures { result ≡ scene_place scene }
{
    SCENES + SETTING_LEN * usize::from(scene)
}

fn scenes_of(slot: &[u8]) -> [LevelSetting; 16]
    ensures { result ≡ settings_in 16 (drop 155 slot.now) }
{
    array::from_fn(|i| setting_at(slot, SCENES + SETTING_LEN * i))
}

// The record that the bytes say.
pub(crate) fn gear_of(slot: &[u8]) -> Gear
    ensures { result ≡ gear_of slot.now }
{
    Gear {
        unit: unit_of(slot),
        levels: levels_of(slot),
        marks: marks_of(slot),
        colour: colour_of(slot),
        settings: settings_of(slot),
        scenes: scenes_of(slot),
        condition: condition_of(slot),
        banks: banks_of(slot),
    }
}
