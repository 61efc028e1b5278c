// What a query changes: the walk through the type list, and the colour report.
ghost use Rattle.std.specs.Prelude.{◌≡◌};
ghost use Rattle.query.specs.Heard.{begun, stepped, walked, level_told, tells_level, reports, shown};

use crate::told::is_query;
use colour::setting::ColourSetting;
use colour::tint::Tint;
use gear::marks::Marks;
use gear::profile::Unit;
use gear::settings::Settings;

// Query 153: a walk begins where there is more than one type.
#[tactic(auto, unfolding(crate::specs::Heard::begun))]
fn begun(count: u8) -> Option<u8>
    ensures { result ≡ begun count }
{
    (1 < count).then_some(0)
}

// Query 167: a walk that is on goes one place on, until past the last type.
#[tactic(auto, unfolding(crate::specs::Heard::stepped, crate::specs::Heard::moved_on))]
fn stepped(count: u8, marks: Marks) -> Marks
    ensures { result ≡ stepped count marks marks.walk }
{
    match marks.walk {
        Some(at) if at < count => marks.with_walk(Some(at + 1)),
        _ => marks,
    }
}

// Every query but the two of the walk ends the walk. The bytes stay numbers, as in told.rt: of the 29 queries two matter here.
#[tactic(auto, unfolding(crate::specs::Heard::walked))]
pub fn walked(unit: Unit, marks: Marks, byte: u8) -> Marks
    ensures { result ≡ walked unit marks byte }
{
    match byte {
        153 => marks.with_walk(begun(unit.count)),
        167 => stepped(unit.count, marks),
        _ if is_query(byte) => marks.with_walk(None),
        _ => marks,
    }
}

// The level that a query tells; of a scene its number.
#[derive(Clone, Copy, PartialEq, Eq, Debug)]
pub enum Told {
    Actual,
    PowerOn,
    SystemFailure,
    Scene(u8),
}

// Part 209, 11.3.2: the queries of the actual level, of power-on, of system failure and of the scenes.
#[tactic(auto, unfolding(crate::specs::Heard::level_told))]
pub fn level_told(byte: u8) -> Option<Told>
    ensures { result ≡ level_told byte }
{
    match byte {
        160 => Some(Told::Actual),
        163 => Some(Told::PowerOn),
        164 => Some(Told::SystemFailure),
        176..=191 => Some(Told::Scene(byte % 16)),
        _ => None,
    }
}

#[tactic(auto, unfolding(crate::specs::Heard::level_told, crate::specs::Heard::tells_level))]
fn tells_level(byte: u8) -> bool
    ensures { result ≡ tells_level byte }
{
    level_told(byte).is_some()
}

// Only a colour gear reports the colour of the level that it tells.
#[tactic(auto, unfolding(crate::specs::Heard::reports))]
pub fn reports(unit: Unit, byte: u8) -> bool
    ensures { result ≡ reports unit byte }
{
    tells_level(byte) && unit.is_dt8()
}

// The colour of the level that a query tells.
#[tactic(auto, unfolding(crate::specs::Heard::level_told, crate::specs::Heard::shown))]
pub fn shown(active: Tint, settings: Settings, scene: ColourSetting, byte: u8) -> ColourSetting
    ensures { result ≡ shown active settings.on.colour settings.failure.colour scene byte }
{
    match level_told(byte) {
        Some(Told::Actual) => active.captured(),
        Some(Told::PowerOn) => settings.on.colour,
        Some(Told::SystemFailure) => settings.failure.colour,
        Some(Told::Scene(_)) | None => scene,
    }
}
