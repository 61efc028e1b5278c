// What can be read of a colour: colour values by id, status, features and control.
ghost use Rattle.std.specs.Prelude.{◌≡◌};
ghost use Rattle.colour.specs.Value.{channel_level, if_capable, own_or, shown, limit_value, color_value, colour_status, features, control_byte};

use crate::capability::Capability;
use crate::kinds::{Kind, kind_of};
use crate::limits::Limits;
use crate::record::{Capabilities, Colour};
use crate::setting::ColourSetting;
use crate::tint::ColorMode;

// Why there is no number: no gear has the id, or this gear lacks what the id needs.
#[derive(Clone, Copy, PartialEq, Eq, Debug)]
pub enum NoValue {
    Unknown,
    Incapable(Capability),
}

// A channel's level; a channel that the gear lacks has the mask.
#[tactic(auto, unfolding(crate::specs::Value::channel_level))]
fn channel_level(levels: [u8; 6], channel: u8, channels: u8) -> u16
    ensures { result ≡ channel_level levels channel channels }
{
    if channels <= channel {
        return 0xFF;
    }
    levels
        .get(usize::from(channel))
        .map_or(0xFF, |level| u16::from(*level))
}

// A value that only some gears have.
#[tactic(auto, unfolding(crate::specs::Value::if_capable))]
fn if_capable(can: Capabilities, need: Capability, value: u16) -> Result<u16, NoValue>
    ensures { result ≡ if_capable can need value }
{
    if need.is_had(can) {
        Ok(value)
    } else {
        Err(NoValue::Incapable(need))
    }
}

// A number that only one type of colour has; a colour of another type shows the mask.
#[tactic(auto, unfolding(crate::specs::Value::own_or))]
fn own_or(kind: u8, owner: u8, value: u16, mask: u16) -> u16
    ensures { result ≡ own_or kind owner value mask }
{
    if kind == owner { value } else { mask }
}

// The place of an id among the numbers of an active, staged or reported colour: 0 x, 1 y, 2 temperature, 9 to 14 the
// channels, 15 the control, 16 the type. Numbers, as table 11 has them: an enum of the places would be made of them by such a match, for
// this one to match again. Put into its three places: called (tried), its Result goes through memory, and an id that no gear has takes a run
// 8.3 ns and not 4.4.
#[tactic(auto, unfolding(crate::specs::Value::shown))]
#[inline(always)]
fn shown(can: Capabilities, setting: ColourSetting, place: u8) -> Result<u16, NoValue>
    ensures { result ≡ shown can setting place }
{
    let kind = setting.kind;
    match place {
        0 => {
            let x = own_or(kind, ColourSetting::XY, setting.x, 0xFFFF);
            if_capable(can, Capability::Xy, x)
        }
        1 => {
            let y = own_or(kind, ColourSetting::XY, setting.y, 0xFFFF);
            if_capable(can, Capability::Xy, y)
        }
        2 => {
            let tc = own_or(kind, ColourSetting::TC, setting.tc, 0xFFFF);
            if_capable(can, Capability::Tc, tc)
        }
        9..=14 => {
            let channel = channel_level(setting.levels, place - 9, can.channels);
            let level = own_or(kind, ColourSetting::RGBWAF, channel, 0xFF);
            if_capable(can, Capability::Channels, level)
        }
        15 => {
            let byte = u16::from(setting.control);
            let control = own_or(kind, ColourSetting::RGBWAF, byte, 0xFF);
            if_capable(can, Capability::Channels, control)
        }
        16 => Ok(u16::from(kind)),
        _ => Err(NoValue::Unknown),
    }
}

// The four Tc limits, in the order of their ids, by their places as above.
#[tactic(auto, unfolding(crate::specs::Value::limit_value))]
fn limit_value(colour: Colour, place: u8) -> Result<u16, NoValue>
    ensures { result ≡ limit_value colour.can colour.limits place }
{
    let Limits { stored, physical } = colour.limits;
    let limit = match place {
        0 => stored.coolest,
        1 => physical.coolest,
        2 => stored.warmest,
        _ => physical.warmest,
    };
    if_capable(colour.can, Capability::Tc, limit)
}

// Part 209, table 11.
#[tactic(auto, unfolding(crate::specs::Value::color_value))]
pub fn color_value(colour: Colour, id: u8) -> Result<u16, NoValue>
    ensures { result ≡ color_value colour id }
{
    let place = id % 32;
    match kind_of(id) {
        Some(Kind::Active) => shown(colour.can, colour.active.face(), place),
        Some(Kind::Primary) => Ok(0xFFFF),
        Some(Kind::Primaries) => Ok(0),
        Some(Kind::Limit) => limit_value(colour, place),
        Some(Kind::Staged) => shown(colour.can, colour.pending.face(), place),
        Some(Kind::Report) => shown(colour.can, colour.report, place),
        None => Err(NoValue::Unknown),
    }
}

// Bits 4, 5 and 7: the active mode; bit 1: an active colour temperature was out of range.
#[tactic(auto, unfolding(crate::specs::Value::colour_status))]
pub fn dt8_colour_status(colour: Colour) -> u8
    ensures { result ≡ colour_status colour }
{
    match colour.active.mode {
        ColorMode::None => 0,
        ColorMode::Xy => 0x10,
        ColorMode::Cct if colour.outside => 0x22,
        ColorMode::Cct => 0x20,
        ColorMode::Rgb => 0x80,
    }
}

// Bit 0 xy, bit 1 Tc, bits 5 to 7 the number of channels.
#[tactic(auto, unfolding(crate::specs::Value::features))]
pub fn dt8_features(colour: Colour) -> u8
    ensures { result ≡ features colour }
{
    colour.can.channels % 8 * 32 + u8::from(colour.can.tc) * 2 + u8::from(colour.can.xy)
}

// A gear without channels has no such byte.
#[tactic(auto, unfolding(crate::specs::Value::control_byte))]
pub fn rgbwaf_control_byte(colour: Colour) -> Result<u16, NoValue>
    ensures { result ≡ control_byte colour }
{
    let control = u16::from(colour.active.control);
    if_capable(colour.can, Capability::Channels, control)
}

pub fn gear_features_byte(colour: Colour) -> u8
    ensures { result ≡ colour.features }
{
    colour.features
}
