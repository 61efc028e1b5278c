// The image of a record: its parts as arrays of bytes, each put at its place.
ghost use Rattle.std.specs.Prelude.{◌≡◌, ◌+◌, ◌++◌, [], ◌≤◌, length, drop, take};
ghost use Rattle.slot.specs.Calls.{colour_put, record_of, stored_answer, stored_bytes};
ghost use Rattle.slot.specs.Image.{image_of, put_bytes, put_colour, put_flags, put_front, put_marks, put_numbers, put_setting};

use crate::parts::{NO_ADDRESS, WALK_OFF, gear_of};
use crate::places::{
    ACTIVE, CHANNEL_LEVELS, CONTROL, FAILURE, FEATURES, GROUPS, IDENTITY, KIND, LEVEL, LIMIT_ERROR,
    ON, PROFILE, REPORT, SCENES, SETTING_LEN, SETTING_LEVEL, SPARE, STAGED, TYPES,
};
use crate::test::{SIZE, Slot, tested};
use colour::setting::ColourSetting;
use gear::answer::{Answer, Outcome, Refusal, Reply, done, refused};
use gear::profile::{Profile, Unit};
use gear::record::Gear;
use gear::settings::LevelSetting;

// Places 0 to 15.
fn front_bytes(gear: Gear) -> [u8; 16]
    ensures { result ≡ put_front gear [] }
{
    let unit = gear.unit;
    let [random0, random1, random2, random3] = unit.random.to_le_bytes();
    [
        gear.levels.level,
        gear.levels.last,
        gear.levels.min,
        gear.levels.max,
        unit.minimum,
        gear.marks.walk.unwrap_or(WALK_OFF),
        unit.short.unwrap_or(NO_ADDRESS),
        unit.count,
        random0,
        random1,
        random2,
        random3,
        gear.colour.can.channels,
        gear.settings.fades.time,
        gear.settings.fades.rate,
        gear.settings.fades.extended,
    ]
}

// The codes of the list of types, and zeros behind them.
fn types_bytes(unit: Unit) -> [u8; 16]
    ensures { result ≡ put_bytes 16 (take unit.count unit.types) [] }
{
    let many = usize::from(unit.count).min(16);
    let mut bytes = [0; 16];
    bytes[..many].copy_from_slice(&unit.types[..many]);
    bytes
}

fn groups_bytes(groups: [bool; 16]) -> [u8; 16]
    ensures { result ≡ put_flags 16 groups [] }
{
    groups.map(u8::from)
}

// Places 48 to 66.
fn marks_bytes(gear: Gear) -> [u8; 19]
    ensures { result ≡ put_marks gear [] }
{
    let marks = gear.marks;
    [
        gear.levels.error,
        marks.reset,
        marks.cycled,
        marks.initialise,
        marks.withdrawn,
        marks.identifying,
        marks.writable,
        marks.pair.is_some(),
        gear.unit.adjustable,
        gear.unit.holds,
        gear.unit.bare,
        gear.colour.can.tc,
        gear.colour.can.xy,
        gear.colour.outside,
        gear.condition.enabled,
        gear.condition.lamp.failure,
        gear.condition.lamp.starting,
        gear.condition.faults.unstored,
        gear.condition.faults.holds,
    ]
    .map(u8::from)
}

// Places 67 to 82.
fn numbers_bytes(gear: Gear) -> [u8; 16]
    ensures { result ≡ put_numbers gear [] }
{
    // 0 where no frame waits.
    let frame = gear.marks.pair.unwrap_or(0);
    let faults = gear.condition.faults;
    let limits = gear.colour.limits;
    let words = [
        faults.drop,
        frame,
        limits.stored.coolest,
        limits.stored.warmest,
        limits.physical.coolest,
        limits.physical.warmest,
    ]
    .map(u16::to_le_bytes);
    let mut bytes = [0; 16];
    bytes[..4].copy_from_slice(&[
        gear.colour.features,
        gear.settings.curve,
        faults.forced,
        faults.failure,
    ]);
    bytes[4..].copy_from_slice(words.as_flattened());
    bytes
}

// x, y and Tc, the channels' levels, the control and the type.
fn colour_bytes(setting: ColourSetting) -> [u8; 14]
    ensures { result ≡ put_colour setting [] }
{
    let values = [setting.x, setting.y, setting.tc].map(u16::to_le_bytes);
    let mut bytes = [0; 14];
    bytes[..CHANNEL_LEVELS].copy_from_slice(values.as_flattened());
    bytes[CHANNEL_LEVELS..CONTROL].copy_from_slice(&setting.levels);
    bytes[CONTROL] = setting.control;
    bytes[KIND] = setting.kind;
    bytes
}

// The level behind its colour.
fn setting_bytes(setting: LevelSetting) -> [u8; SETTING_LEN]
    ensures { result ≡ put_setting setting [] }
{
    let mut bytes = [0; SETTING_LEN];
    bytes[..SETTING_LEVEL].copy_from_slice(&colour_bytes(setting.colour));
    bytes[SETTING_LEVEL] = setting.level;
    bytes
}

// So many bytes at a place. What stands around them stays.
fn put(slot: &mut [u8], place: usize, bytes: &[u8])
    requires { place + length bytes.now ≤ length slot.old }
    ensures { slot.new ≡ take place slot.old ++ (bytes.now ++ drop (place + length bytes.now) slot.old) }
{
    slot[place..place + bytes.len()].copy_from_slice(bytes);
}

// The colour at a place of a slot; nothing where it has no room there.
#[tactic(auto, unfolding(crate::specs::Calls::colour_put))]
pub fn put_colour_at(slot: &mut [u8], place: usize, setting: ColourSetting)
    ensures { slot.new ≡ colour_put slot.old place setting }
{
    if slot.len().saturating_sub(place) >= 14 {
        put(slot, place, &colour_bytes(setting));
    }
}

fn put_image(slot: &mut Slot, gear: Gear)
    ensures { slot.new ≡ image_of gear }
{
    put(slot, LEVEL, &front_bytes(gear));
    put(slot, TYPES, &types_bytes(gear.unit));
    put(slot, GROUPS, &groups_bytes(gear.settings.groups));
    put(slot, LIMIT_ERROR, &marks_bytes(gear));
    put(slot, FEATURES, &numbers_bytes(gear));
    put(slot, ACTIVE, &colour_bytes(gear.colour.active.face()));
    put(slot, STAGED, &colour_bytes(gear.colour.pending.face()));
    put(slot, REPORT, &colour_bytes(gear.colour.report));
    put(slot, ON, &setting_bytes(gear.settings.on));
    put(slot, FAILURE, &setting_bytes(gear.settings.failure));
    put(slot, SCENES, gear.scenes.map(setting_bytes).as_flattened());
    put(slot, IDENTITY, &gear.banks.identity);
    put(slot, PROFILE, &gear.banks.profile);
    put(slot, SPARE, &[0; SIZE - SPARE]);
}

// The image of a fit record. A slot of another length is refused, and then a record that is not fit; neither writes anything.
#[tactic(auto, unfolding(crate::specs::Calls::stored_answer, crate::specs::Calls::stored_bytes))]
pub fn store(slot: &mut [u8], gear: Gear) -> Answer
    ensures { (result ≡ stored_answer slot.old gear) × (slot.new ≡ stored_bytes slot.old gear) }
{
    let slot = slot.as_mut_array().ok_or(Refusal::Length)?;
    if !gear.fit() {
        return Err(Refusal::Unfit);
    }
    put_image(slot, gear);
    Ok(Reply::Done)
}

// The record of an image. Where the slot is refused, it comes with a record that no call accepts.
#[tactic(auto, unfolding(crate::specs::Calls::record_of, crate::specs::Calls::tested))]
pub fn record_of(slot: &[u8]) -> Outcome
    ensures { result ≡ record_of slot.now }
{
    match tested(slot) {
        Ok(slot) => done(gear_of(slot)),
        Err(refusal) => refused(Gear::new(Profile::none()).gear, refusal),
    }
}
