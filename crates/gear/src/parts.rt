// What a write makes of one part of the record.
ghost use Rattle.std.specs.Prelude.{◌≡◌};
ghost use Rattle.gear.specs.Write.{keeps_identify, recalled_levels, set_min, extended_fade};

use crate::profile::Unit;
use crate::settings::SCENE_UNSET;
use level::arc::ArcCommand;
use level::levels::Levels;

// The longest extended fade time that is stored as it came.
const EXTENDED_FADE_MAX: u8 = 79;

// Part 102, 9.14.3: recalling the highest or the lowest level leaves the identify mark.
#[tactic(auto, unfolding(crate::specs::Write::keeps_identify))]
pub fn keeps_identify(command: ArcCommand) -> bool
    ensures { result ≡ keeps_identify command }
{
    matches!(
        command,
        ArcCommand::RecallMaxLevel | ArcCommand::RecallMinLevel
    )
}

// A scene without a level asks for none.
#[tactic(auto, unfolding(crate::specs::Write::recalled_levels))]
pub fn recalled_levels(levels: Levels, level: u8) -> Levels
    ensures { result ≡ recalled_levels levels level }
{
    if level == SCENE_UNSET {
        levels
    } else {
        levels.set_level(level)
    }
}

// Part 208: a switching gear may have a fixed lowest level.
#[tactic(auto, unfolding(crate::specs::Write::set_min))]
pub fn set_min(unit: Unit, levels: Levels, asked: u8) -> Levels
    ensures { result ≡ set_min unit levels asked }
{
    if unit.levels_fixed() {
        levels
    } else {
        levels.set_min_level(unit.min_level_floor(), asked)
    }
}

#[tactic(auto, unfolding(crate::specs::Write::extended_fade))]
pub fn extended_fade(asked: u8) -> u8
    ensures { result ≡ extended_fade asked }
{
    if asked <= EXTENDED_FADE_MAX { asked } else { 0 }
}
