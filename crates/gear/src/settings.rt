// What the settings store (part 102, 11.4; part 209, table 8).
ghost use Rattle.std.specs.Prelude.{◌≡◌};
ghost use Rattle.gear.specs.Settings.{factory_setting, factory_settings, store_level_setting, unset};

use crate::profile::Unit;
use colour::record::{Capabilities, Colour};
use colour::setting::ColourSetting;
use colour::staging::take_staged_colour;
use colour::tint::ColorMode;
use level::levels::Levels;

// A level with its colour: for power-on, for system failure, and of a scene.
#[derive(Clone, Copy)]
pub struct LevelSetting {
    pub colour: ColourSetting,
    pub level: u8,
}

#[derive(Clone, Copy)]
pub struct Fades {
    pub time: u8,
    pub rate: u8,
    pub extended: u8,
}

#[derive(Clone, Copy)]
pub struct Settings {
    pub on: LevelSetting,
    pub failure: LevelSetting,
    pub fades: Fades,
    pub groups: [bool; 16],
    pub curve: u8,
}

// A setting with its new level, and the colour record that is left.
#[derive(Clone, Copy)]
pub struct StoredLevel {
    pub setting: LevelSetting,
    pub colour: Colour,
}

// A scene without a level.
pub const SCENE_UNSET: u8 = 255;

impl LevelSetting {
    // The highest level with the factory's colour.
    fn factory(unit: Unit, can: Capabilities) -> LevelSetting
        ensures { result ≡ factory_setting unit can }
    {
        LevelSetting {
            level: Levels::MAX,
            colour: ColourSetting::factory(unit.is_dt8(), can),
        }
    }

    // A scene without a level and without a colour.
    pub fn unset() -> LevelSetting
        ensures { result ≡ unset }
    {
        LevelSetting {
            level: SCENE_UNSET,
            colour: ColourSetting::mask(),
        }
    }
}

impl Settings {
    // The settings of a new gear, and of one that was reset.
    pub(crate) fn factory(unit: Unit, can: Capabilities) -> Settings
        ensures { result ≡ factory_settings unit can }
    {
        let setting = LevelSetting::factory(unit, can);
        Settings {
            on: setting,
            failure: setting,
            fades: Fades {
                time: 0,
                rate: 7,
                extended: 0,
            },
            groups: [false; 16],
            curve: 0,
        }
    }
}

// Part 209, 9.2.2, 9.3.2, 9.11.4: the level, with the staged colour where there is one, which is then taken away; else with the
// colour that was there.
#[tactic(auto, unfolding(crate::specs::Settings::store_level_setting))]
pub fn store_level_setting(kept: LevelSetting, level: u8, colour: Colour) -> StoredLevel
    ensures { result ≡ store_level_setting kept level colour }
{
    let taken = take_staged_colour(colour, kept.colour);
    StoredLevel {
        setting: LevelSetting {
            colour: taken.setting,
            level,
        },
        colour: taken.colour,
    }
}

// The same where they lie.
#[tactic(auto, unfolding(crate::specs::Settings::store_level_setting, colour::specs::Staging::take_staged_colour))]
pub fn store_level(kept: &mut LevelSetting, colour: &mut Colour, level: u8)
    ensures kept { kept.new ≡ (store_level_setting kept.old level colour.old).setting }
    ensures colour { colour.new ≡ (store_level_setting kept.old level colour.old).colour }
{
    kept.level = level;
    if colour.pending.mode != ColorMode::None {
        kept.colour = colour.pending.captured();
        colour.pending.mode = ColorMode::None;
        colour.pending.control = ColourSetting::CONTROL_MASK;
    }
}
