// A standard write on a record, where it lies. Each function stores only the parts that its command changes. They stand beside
// gear::write's, which take the whole record of 476 bytes and hand it back: some 1,100 instructions a call (docs/PERFORMANCE.md). Called by
// gear's, these would be public there and so serve any number of a scene or a group, with a test at each index that a run has no use for.
ghost use Rattle.std.specs.Prelude.{◌≡◌, ◌<◌};
ghost use Rattle.gear.specs.Marks.{configured};
ghost use Rattle.gear.specs.Parts.{with_marks};
ghost use Rattle.gear.specs.Write.{arc_write, config_write, recall_scene, write};
ghost use Rattle.step.specs.Slot.{setting_slot, slot_of};

use crate::recolour::{arc_power, recall};
use gear::answer::{Answer, Refusal, Reply};
use gear::command::{ConfigCommand, StandardCommand};
use gear::parts::{extended_fade, keeps_identify, recalled_levels, set_min};
use gear::record::Gear;
use gear::settings::{LevelSetting, store_level};
use level::arc::{ArcCommand, apply_arc};

// That a scene or a group is below 16 is a clause of the three functions that index by it: `command_of` makes no other, but a command's number
// is any byte for gear's public functions, and its type says no more.

// It has two callers, and is put into both: with its line, a step of the mix 'power' (bench/run) takes 186 instructions, and 194 where it
// is not.
#[tactic(auto, unfolding(gear::specs::Write::arc_write))]
#[inline(always)]
pub(crate) fn arc_write(gear: &mut Gear, command: ArcCommand)
    ensures { gear.new ≡ arc_write gear.old command }
{
    gear.levels = apply_arc(gear.levels, command);
    gear.marks = gear.marks.asked(keeps_identify(command));
    arc_power(&mut gear.colour);
}

#[tactic(auto, using(step::proofs::Slots::scene_at_lem), unfolding(gear::specs::Write::recall_scene))]
fn recall_scene(gear: &mut Gear, scene: u8)
    requires { scene < 16 }
    ensures { gear.new ≡ recall_scene gear.old scene }
{
    let entry = gear.scenes[usize::from(scene)];
    gear.levels = recalled_levels(gear.levels, entry.level);
    gear.marks = gear.marks.asked(false);
    recall(&mut gear.colour, entry.colour);
}

// The marks are left to the caller: with them stored here, before the match (tried), a step takes 182 instructions in the mix 'power'
// (bench/run) and not 180, and 155 in 'generator' and not 153.
#[tactic(auto, using(step::proofs::Slots::scene_at_lem, step::proofs::Slots::stored_at), unfolding(gear::specs::Write::config_write, gear::specs::Write::remove_scene, gear::specs::Write::set_scene, gear::specs::Write::set_power_on_level, gear::specs::Write::set_system_failure_level))]
fn config_write(gear: &mut Gear, command: ConfigCommand, dtr0: u8)
    requires { setting_slot command < 16 }
    ensures stored { with_marks gear.new (configured gear.old.marks) ≡ config_write gear.old command dtr0 }
    ensures marks { gear.new.marks ≡ gear.old.marks }
{
    match command {
        ConfigCommand::SetMaxLevel => gear.levels = gear.levels.set_max_level(dtr0),
        ConfigCommand::SetMinLevel => gear.levels = set_min(gear.unit, gear.levels, dtr0),
        ConfigCommand::SetSystemFailureLevel => store_level(
            &mut gear.settings.failure,
            &mut gear.colour,
            dtr0,
        ),
        ConfigCommand::SetPowerOnLevel => store_level(
            &mut gear.settings.on,
            &mut gear.colour,
            dtr0,
        ),
        ConfigCommand::SetFadeTime => gear.settings.fades.time = dtr0,
        ConfigCommand::SetFadeRate => gear.settings.fades.rate = dtr0,
        ConfigCommand::SetExtendedFadeTime => gear.settings.fades.extended = extended_fade(dtr0),
        ConfigCommand::SetScene(scene) => store_level(
            &mut gear.scenes[usize::from(scene)],
            &mut gear.colour,
            dtr0,
        ),
        ConfigCommand::RemoveScene(scene) => gear.scenes[usize::from(scene)] =
            LevelSetting::unset(),
        ConfigCommand::AddToGroup(group) => gear.settings.groups[usize::from(group)] = true,
        ConfigCommand::RemoveFromGroup(group) => gear.settings.groups[usize::from(group)] = false,
    }
}

#[tactic(auto, unfolding(gear::specs::Write::write, gear::specs::Write::identify, gear::specs::Write::enable_write))]
pub(crate) fn write(gear: &mut Gear, command: Option<StandardCommand>, dtr0: u8) -> Answer
    requires { slot_of command < 16 }
    ensures { record { answer = result; gear = gear.new } ≡ write gear.old command dtr0 }
{
    match command.ok_or(Refusal::Byte)? {
        StandardCommand::Arc(command) => arc_write(gear, command),
        StandardCommand::GoToScene(scene) => recall_scene(gear, scene),
        StandardCommand::Config(command) => {
            config_write(gear, command, dtr0);
            gear.marks = gear.marks.configured();
        }
        StandardCommand::Reset => {
            *gear = Gear::reset_gear(gear.unit, gear.condition, gear.colour);
        }
        StandardCommand::IdentifyDevice => gear.marks = gear.marks.identified(),
        StandardCommand::EnableWriteMemory => gear.marks = gear.marks.enabled(),
    }
    Ok(Reply::Done)
}
