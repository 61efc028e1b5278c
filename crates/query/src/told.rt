// What a query answers (document 01, 'Command bytes').
ghost use Rattle.std.specs.Prelude.{◌≡◌, Ok};
ghost use Rattle.gear.specs.declared.answer.Reply.TheVariants.{Value};
ghost use Rattle.query.specs.Reply.{is_status_query, is_setting_query, is_query, yes, status_reply, packed_fades, gear_failure, setting_reply, identity_reply, reply, seen_with, told};
ghost use Rattle.query.specs.Status.{status_byte};

use crate::bits::eight;
use crate::lamp::{actual_level_answer, lamp_on};
use crate::status::status_byte;
use crate::walk::{next_type_answer, type_answer};
use colour::tint::Tint;
use gear::answer::{Answer, Refusal, Reply};
use gear::condition::Condition;
use gear::marks::Marks;
use gear::profile::Unit;
use gear::record::Gear;
use gear::settings::Fades;
use level::levels::Levels;

// The parts of a record that queries tell of.
#[derive(Clone, Copy)]
pub struct Seen {
    pub unit: Unit,
    pub levels: Levels,
    pub marks: Marks,
    // The levels for power-on and for system failure.
    pub on: u8,
    pub failure: u8,
    pub fades: Fades,
    pub groups: [bool; 16],
    // The level of the scene that the low half of the byte names.
    pub scene: u8,
    pub condition: Condition,
    pub active: Tint,
}

impl Seen {
    // Of a record, with the level of one scene.
    pub fn of(gear: &Gear, scene: u8) -> Seen
        ensures { result ≡ seen_with gear.now scene }
    {
        let groups = gear.settings.groups;
        Seen {
            unit: gear.unit,
            levels: gear.levels,
            marks: gear.marks,
            on: gear.settings.on.level,
            failure: gear.settings.failure.level,
            fades: gear.settings.fades,
            groups,
            scene,
            condition: gear.condition,
            active: gear.colour.active,
        }
    }

    // The status byte.
    fn status(self) -> u8
        ensures { result ≡ status_byte self.unit self.levels self.marks self.condition.lamp self.condition.faults }
    {
        status_byte(self.unit, self.levels, self.marks, self.condition)
    }
}

// The byte of a query stays a number, matched by its halves beside what it tells: an enum of the 29 queries would be listed, made from
// the byte and then matched again.
#[tactic(auto, unfolding(crate::specs::Reply::is_status_query))]
fn is_status_query(low: u8) -> bool
    ensures { result ≡ is_status_query low }
{
    !matches!(low, 8 | 12 | 13)
}

#[tactic(auto, unfolding(crate::specs::Reply::is_setting_query))]
fn is_setting_query(low: u8) -> bool
    ensures { result ≡ is_setting_query low }
{
    matches!(low, 0..=8 | 10)
}

#[tactic(auto, unfolding(crate::specs::Reply::is_query))]
pub(crate) fn is_query(byte: u8) -> bool
    ensures { result ≡ is_query byte }
{
    let low = byte % 16;
    match byte / 16 {
        9 => is_status_query(low),
        10 => is_setting_query(low),
        11 => true,
        12 => low <= 4,
        _ => false,
    }
}

// Yes is 255; no is no answer.
#[tactic(auto, unfolding(crate::specs::Reply::yes))]
fn yes(holds: bool) -> Answer
    ensures { result ≡ yes holds }
{
    Ok(if holds {
        Reply::Value(255)
    } else {
        Reply::Nothing
    })
}

fn value(byte: u8) -> Answer
    ensures { result ≡ Ok (Value byte) }
{
    Ok(Reply::from(byte))
}

// Queries 144 to 159.
#[tactic(auto, unfolding(crate::specs::Reply::status_reply, crate::specs::Status::missing))]
fn status_reply(seen: Seen, low: u8) -> Answer
    ensures { result ≡ status_reply seen low }
{
    match low {
        0 => value(seen.status()),
        1 => Ok(Reply::Value(255)),
        2 => yes(seen.condition.lamp.failure),
        3 => yes(lamp_on(seen.unit, seen.levels, seen.condition)),
        4 => yes(seen.levels.error),
        5 => yes(seen.marks.reset),
        6 => yes(seen.unit.short.is_none()),
        7 => Ok(Reply::Value(8)),
        10 => value(seen.unit.minimum),
        11 => yes(seen.marks.cycled),
        14 => Ok(Reply::Value(0)),
        15 => Ok(Reply::Value(6)),
        _ => Ok(Reply::Nothing),
    }
}

// Fade time in the high half, fade rate in the low one, whatever else is stored in them.
#[tactic(auto, unfolding(crate::specs::Reply::packed_fades))]
fn packed_fades(fades: Fades) -> u8
    ensures { result ≡ packed_fades fades.time fades.rate }
{
    fades.time % 16 * 16 + fades.rate % 16
}

// Bit 0 of the status.
#[tactic(auto, unfolding(crate::specs::Reply::gear_failure))]
fn gear_failure(seen: Seen) -> bool
    ensures { result ≡ gear_failure seen }
{
    seen.status() % 2 == 1
}

// Queries 160 to 170. No operating mode of this gear is a manufacturer's own, so 166 is never answered.
#[tactic(auto, unfolding(crate::specs::Reply::setting_reply))]
fn setting_reply(seen: Seen, low: u8) -> Answer
    ensures { result ≡ setting_reply seen low }
{
    match low {
        0 => value(actual_level_answer(seen.unit, seen.levels, seen.condition.faults, seen.active)),
        1 => value(seen.levels.max),
        2 => value(seen.levels.min),
        3 => value(seen.on),
        4 => value(seen.failure),
        5 => value(packed_fades(seen.fades)),
        8 => value(seen.fades.extended),
        10 => yes(gear_failure(seen)),
        _ => Ok(Reply::Nothing),
    }
}

// Queries 192 to 196.
#[tactic(auto, unfolding(crate::specs::Reply::identity_reply))]
fn identity_reply(seen: Seen, low: u8) -> Answer
    ensures { result ≡ identity_reply seen low }
{
    let [_, high, middle, lowest] = seen.unit.random.to_be_bytes();
    match low {
        0 => value(eight(seen.groups, false)),
        1 => value(eight(seen.groups, true)),
        2 => value(high),
        3 => value(middle),
        4 => value(lowest),
        _ => Ok(Reply::Nothing),
    }
}

#[tactic(auto, unfolding(crate::specs::Reply::reply))]
fn reply(seen: Seen, byte: u8) -> Answer
    ensures { result ≡ reply seen byte }
{
    let low = byte % 16;
    match byte / 16 {
        9 => status_reply(seen, low),
        10 => setting_reply(seen, low),
        11 => value(seen.scene),
        12 => identity_reply(seen, low),
        _ => Ok(Reply::Nothing),
    }
}

#[tactic(auto, unfolding(crate::specs::Reply::told))]
pub fn query_answer(seen: Seen, byte: u8) -> Answer
    ensures { result ≡ told seen byte }
{
    match byte {
        153 => type_answer(seen.unit),
        167 => next_type_answer(seen.unit, seen.marks.walk),
        _ if is_query(byte) => reply(seen, byte),
        _ => Err(Refusal::Byte),
    }
}
