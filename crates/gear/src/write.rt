// Standard writes (part 102, 11.3 and 11.4): arc power, scenes, settings, reset, identify and write enable.
ghost use Rattle.std.specs.Prelude.{◌≡◌};
ghost use Rattle.gear.specs.Write.{arc_write, recall_scene, set_scene, remove_scene, set_member, config_write, identify, enable_write, write, apply_standard_write, direct_arc_power};

use crate::answer::{Outcome, Refusal, done, refused};
use crate::command::{ConfigCommand, StandardCommand, command_of};
use crate::parts::{extended_fade, keeps_identify, recalled_levels, set_min};
use crate::record::Gear;
use crate::scene::scene_at;
use crate::settings::{LevelSetting, Settings, store_level, store_level_setting};
use colour::activation::{arc_power_activation, recall};
use level::arc::{ArcCommand, apply_arc};
use numbers::entries::stored_at;

#[tactic(auto, unfolding(crate::specs::Write::arc_write))]
fn arc_write(gear: Gear, command: ArcCommand) -> Gear
    ensures { result ≡ arc_write gear command }
{
    Gear {
        levels: apply_arc(gear.levels, command),
        marks: gear.marks.asked(keeps_identify(command)),
        colour: arc_power_activation(gear.colour),
        ..gear
    }
}

// Part 209, 9.11.4: the scene's colour, then its level.
#[tactic(auto, unfolding(crate::specs::Write::recall_scene))]
fn recall_scene(gear: Gear, scene: u8) -> Gear
    ensures { result ≡ recall_scene gear scene }
{
    let entry = scene_at(gear.scenes, scene);
    Gear {
        levels: recalled_levels(gear.levels, entry.level),
        marks: gear.marks.asked(false),
        colour: recall(gear.colour, entry.colour),
        ..gear
    }
}

// Part 209, 9.11.4: the level with the staged colour.
#[tactic(auto, unfolding(crate::specs::Write::set_scene, crate::specs::Scene::stored))]
fn set_scene(gear: Gear, scene: u8, level: u8) -> Gear
    ensures { result ≡ set_scene gear scene level }
{
    let stored = store_level_setting(scene_at(gear.scenes, scene), level, gear.colour);
    Gear {
        scenes: stored_at(gear.scenes, scene, stored.setting),
        colour: stored.colour,
        ..gear
    }
}

#[tactic(auto, unfolding(crate::specs::Write::remove_scene, crate::specs::Scene::stored))]
fn remove_scene(gear: Gear, scene: u8) -> Gear
    ensures { result ≡ remove_scene gear scene }
{
    Gear {
        scenes: stored_at(gear.scenes, scene, LevelSetting::unset()),
        ..gear
    }
}

#[tactic(auto, unfolding(crate::specs::Scene::stored))]
fn set_member(gear: Gear, group: u8, member: bool) -> Gear
    ensures { result ≡ set_member gear group member }
{
    Gear {
        settings: Settings {
            groups: stored_at(gear.settings.groups, group, member),
            ..gear.settings
        },
        ..gear
    }
}

#[tactic(auto, unfolding(crate::specs::Write::config_write, crate::specs::Write::set_power_on_level, crate::specs::Write::set_system_failure_level))]
fn config_write(gear: Gear, command: ConfigCommand, dtr0: u8) -> Gear
    ensures { result ≡ config_write gear command dtr0 }
{
    let mut next = Gear {
        marks: gear.marks.configured(),
        ..gear
    };
    match command {
        ConfigCommand::SetMaxLevel => next.levels = gear.levels.set_max_level(dtr0),
        ConfigCommand::SetMinLevel => next.levels = set_min(gear.unit, gear.levels, dtr0),
        // Part 209, 9.2.2 and 9.3.2: each level with the staged colour.
        ConfigCommand::SetSystemFailureLevel => store_level(
            &mut next.settings.failure,
            &mut next.colour,
            dtr0,
        ),
        ConfigCommand::SetPowerOnLevel => store_level(
            &mut next.settings.on,
            &mut next.colour,
            dtr0,
        ),
        ConfigCommand::SetFadeTime => next.settings.fades.time = dtr0,
        ConfigCommand::SetFadeRate => next.settings.fades.rate = dtr0,
        ConfigCommand::SetExtendedFadeTime => next.settings.fades.extended = extended_fade(dtr0),
        ConfigCommand::SetScene(scene) => next = set_scene(next, scene, dtr0),
        ConfigCommand::RemoveScene(scene) => next = remove_scene(next, scene),
        ConfigCommand::AddToGroup(group) => next = set_member(next, group, true),
        ConfigCommand::RemoveFromGroup(group) => next = set_member(next, group, false),
    }
    next
}

#[tactic(auto, unfolding(crate::specs::Write::identify))]
fn identify(gear: Gear) -> Gear
    ensures { result ≡ identify gear }
{
    Gear {
        marks: gear.marks.identified(),
        ..gear
    }
}

#[tactic(auto, unfolding(crate::specs::Write::enable_write))]
fn enable_write(gear: Gear) -> Gear
    ensures { result ≡ enable_write gear }
{
    Gear {
        marks: gear.marks.enabled(),
        ..gear
    }
}

#[tactic(auto, unfolding(crate::specs::Write::write))]
fn write(gear: Gear, command: StandardCommand, dtr0: u8) -> Outcome
    ensures { result ≡ write gear (Some command) dtr0 }
{
    match command {
        StandardCommand::Arc(arc) => done(arc_write(gear, arc)),
        StandardCommand::GoToScene(scene) => done(recall_scene(gear, scene)),
        StandardCommand::Reset => done(Gear::reset_gear(gear.unit, gear.condition, gear.colour)),
        StandardCommand::IdentifyDevice => done(identify(gear)),
        StandardCommand::Config(config) => done(config_write(gear, config, dtr0)),
        StandardCommand::EnableWriteMemory => done(enable_write(gear)),
    }
}

// A write by its byte, with DTR0.
#[tactic(auto, unfolding(crate::specs::Write::apply_standard_write, crate::specs::Write::write, crate::specs::Serve::serve))]
pub fn apply_standard_write(gear: Gear, byte: u8, dtr0: u8) -> Outcome
    ensures { result ≡ apply_standard_write gear byte dtr0 }
{
    if !gear.fit() {
        return refused(gear, Refusal::Unfit);
    }
    match command_of(byte) {
        Some(command) => write(gear, command, dtr0),
        None => refused(gear, Refusal::Byte),
    }
}

// Direct arc power, which has no byte of its own.
#[tactic(auto, unfolding(crate::specs::Write::direct_arc_power, crate::specs::Serve::serve))]
pub fn direct_arc_power(gear: Gear, level: u8) -> Outcome
    ensures { result ≡ direct_arc_power gear level }
{
    if !gear.fit() {
        return refused(gear, Refusal::Unfit);
    }
    done(arc_write(gear, ArcCommand::DirectArcPower(level)))
}
