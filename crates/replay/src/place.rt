// Kinds 64 to 75, which put values into a record. None for a value outside its range (oracle/FORMAT.md, 'Malformed lists').
use crate::entry::Entry;
use crate::mode::mode_of;
use colour::tint::Tint;
use gear::answer::{Outcome, done};
use gear::record::Gear;
use gear::settings::LevelSetting;
use numbers::entries::stored_at;

fn levels(gear: &mut Gear, entry: Entry) {
    gear.levels.level = entry.byte(1);
    gear.levels.last = entry.byte(2);
    gear.levels.error = entry.flag(3);
}

fn addressing(gear: &mut Gear, entry: Entry) {
    gear.marks.initialise = entry.flag(1);
    gear.marks.withdrawn = entry.flag(2);
    gear.settings.curve = entry.byte(3);
}

// The colour of a scene; its level stays.
fn scene(gear: &mut Gear, entry: Entry) -> Option<()> {
    gear.scenes.get_mut(usize::from(entry.byte(1)))?.colour = entry.setting(2);
    Some(())
}

fn stored(entry: Entry) -> LevelSetting {
    LevelSetting {
        level: entry.byte(1),
        colour: entry.setting(2),
    }
}

// Its channels and their control stand in a part of their own.
fn tint(entry: Entry, channels: Entry) -> Option<Tint> {
    Some(Tint {
        mode: mode_of(entry.byte(1))?,
        x: entry.word(2),
        y: entry.word(4),
        tc: entry.word(6),
        levels: channels.array(0),
        control: channels.byte(6),
    })
}

fn active(gear: &mut Gear, entry: Entry) -> Option<()> {
    gear.colour.active = tint(entry, entry.from(9))?;
    gear.colour.outside = entry.flag(8);
    Some(())
}

fn device_types(gear: &mut Gear, entry: Entry) {
    gear.unit.count = entry.byte(1);
    gear.unit.types = entry.array(2);
}

fn bank_byte(gear: &mut Gear, entry: Entry) -> Option<()> {
    let [bank, offset, value] = entry.array::<3>(1);
    gear.banks = match bank {
        0 if offset < 29 => gear
            .banks
            .with_identity(stored_at(gear.banks.identity, offset, value)),
        1 if offset < 17 => gear
            .banks
            .with_profile(stored_at(gear.banks.profile, offset, value)),
        _ => return None,
    };
    Some(())
}

fn heard(gear: &mut Gear, entry: Entry) {
    gear.marks.reset = entry.flag(1);
    gear.marks.cycled = entry.flag(2);
    gear.marks.identifying = entry.flag(3);
    gear.marks.writable = entry.flag(4);
}

fn put(gear: &mut Gear, entry: Entry) -> Option<()> {
    match entry.kind() {
        64 => levels(gear, entry),
        // A cursor of the type walk, or off.
        65 => gear.marks.walk = entry.number(1),
        66 => addressing(gear, entry),
        67 => scene(gear, entry)?,
        68 => gear.colour.report = entry.setting(1),
        69 => gear.settings.on = stored(entry),
        70 => gear.settings.failure = stored(entry),
        71 => active(gear, entry)?,
        72 => gear.colour.pending = tint(entry, entry.from(8))?,
        73 => device_types(gear, entry),
        74 => bank_byte(gear, entry)?,
        75 => heard(gear, entry),
        _ => return None,
    }
    Some(())
}

// A placing leaves a fit record, which has at most 16 types, and a cursor of at most 16.
pub fn place(mut gear: Gear, entry: Entry) -> Option<Outcome> {
    put(&mut gear, entry)?;
    gear.fit().then(|| done(gear))
}
