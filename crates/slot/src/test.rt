// Whether 512 bytes are the image of a fit record.
ghost use Rattle.std.specs.Prelude.{◌≡◌, ◌-◌, true, drop, fold, max, take};
ghost use Rattle.gear.specs.Record.{fitb};
ghost use Rattle.slot.specs.Calls.{lent, tested};
ghost use Rattle.slot.specs.Held.{at_most, canonical, heldb, is_kind, limits, list_quiet, pair_quiet};
ghost use Rattle.slot.specs.Record.{gear_of};

use crate::bytes::{behind, byte, flag, word};
use crate::parts::{NO_ADDRESS, WALK_OFF, colour_of, levels_of, unit_of};
use crate::places::{
    ACTIVE, CHANNEL_COUNT, FADE_TIME, FEATURES, FRAME, GROUPS, KIND, MAX_LEVEL, MINIMUM, PAIR,
    RANDOM, SHORT, SPARE, STAGED, TYPE_COUNT, TYPES, WALK,
};
use colour::setting::ColourSetting;
use gear::answer::Refusal;
use gear::profile::RECORD_TYPES;
use level::levels::Levels;
use std::ops::Range;

// How long a slot is.
pub const SIZE: usize = 512;

// The bytes of one record.
pub type Slot = [u8; SIZE];

// The highest of the bytes at some places, 0 where there are none.
fn highest(slot: &[u8], places: &Range<usize>) -> u8
    ensures { result ≡ fold max 0 (take (places.now.end - places.now.start) (drop places.now.start slot.now)) }
{
    behind(slot, places.start)
        .iter()
        .take(places.len())
        .copied()
        .fold(0, u8::max)
}

// The places where not any byte will do, with the highest that will.
const LIMITS: [(Range<usize>, u8); 8] = [
    (MAX_LEVEL..WALK, Levels::MAX),
    (WALK..SHORT, WALK_OFF),
    (SHORT..TYPE_COUNT, NO_ADDRESS),
    (TYPE_COUNT..RANDOM, RECORD_TYPES),
    (RANDOM + 3..CHANNEL_COUNT, 0),
    (CHANNEL_COUNT..FADE_TIME, 6),
    (GROUPS..FEATURES, 1),
    (SPARE..SIZE, 0),
];

// Each byte by itself.
fn is_low_enough(slot: &[u8]) -> bool
    ensures { result ≡ at_most limits slot.now }
{
    LIMITS
        .iter()
        .all(|(places, limit)| highest(slot, places) <= *limit)
}

// The codes behind the list of types are 0.
fn is_list_quiet(slot: &[u8]) -> bool
    ensures { result ≡ list_quiet slot.now }
{
    let count = usize::from(byte(slot, TYPE_COUNT));
    count > 16 || highest(slot, &(TYPES + count..GROUPS)) == 0
}

// A closed pair has frame 0.
fn is_pair_quiet(slot: &[u8]) -> bool
    ensures { result ≡ pair_quiet slot.now }
{
    flag(slot, PAIR) || word(slot, FRAME) == 0
}

// One of part 209's types, or none.
fn is_kind(kind: u8) -> bool
    ensures { result ≡ is_kind kind }
{
    matches!(
        kind,
        ColourSetting::XY | ColourSetting::TC | ColourSetting::RGBWAF | ColourSetting::MASK
    )
}

fn is_canonical(slot: &[u8]) -> bool
    ensures { result ≡ canonical slot.now }
{
    is_list_quiet(slot)
        && is_pair_quiet(slot)
        && is_kind(byte(slot, ACTIVE + KIND))
        && is_kind(byte(slot, STAGED + KIND))
}

// What the limits leave of a fit record's tests.
fn is_fit(slot: &[u8]) -> bool
    requires { at_most limits slot.now ≡ true }
    ensures { result ≡ fitb (gear_of slot.now) }
{
    byte(slot, MINIMUM) >= 1
        && levels_of(slot).fit(unit_of(slot).min_level_floor())
        && colour_of(slot).fit()
}

// Of 512 bytes, whether they are the image of a fit record.
#[tactic(auto, unfolding(crate::specs::Held::heldb))]
pub fn is_held(slot: &[u8]) -> bool
    ensures { result ≡ heldb slot.now }
{
    is_low_enough(slot) && is_canonical(slot) && is_fit(slot)
}

// The bytes of a record that a call may work on. A slot of another length is refused, and then one that is no image of a fit record.
#[tactic(auto, unfolding(crate::specs::Calls::tested))]
pub fn tested(slot: &[u8]) -> Result<&Slot, Refusal>
    ensures { lent result ≡ tested slot.now }
{
    let slot = slot.as_array().ok_or(Refusal::Length)?;
    if !is_held(slot) {
        return Err(Refusal::Unfit);
    }
    Ok(slot)
}
