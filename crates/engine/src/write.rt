// Standard writes on a slot (part 102, 11.3 and 11.4): arc power, scenes, settings, reset, identify and write enable.
ghost use Rattle.colour.specs.Activation.{recall};
ghost use Rattle.gear.specs.Parts.{with_colour};
ghost use Rattle.engine.specs.Served.{Served};
ghost use Rattle.engine.specs.Works.{Works};
ghost use Rattle.gear.specs.Command.{command_of};
ghost use Rattle.gear.specs.Write.{apply_standard_write, arc_write, direct_arc_power, recall_scene, write};
ghost use Rattle.slot.specs.Held.{Does};

use crate::activation::activate_by_arc;
use crate::config::config_write;
use crate::levels::put_levels;
use crate::marks::{ask, enable_write, identify};
use crate::reset::reset_gear;
use crate::serve::{Slot, change, serve};
use crate::staging::stage;
use colour::setting::ColourSetting;
use gear::answer::{Answer, Refusal, Reply};
use gear::command::{StandardCommand, command_of};
use gear::parts::{keeps_identify, recalled_levels};
use level::arc::{ArcCommand, apply_arc};
use slot::parts::{levels_of, scene_place, setting_at};

// It has two callers, and is put into both: `direct_arc_power` takes 23 to 25 ns, and 31 where it is not.
#[inline(always)]
fn arc_write(slot: &mut Slot, command: ArcCommand)
    ensures { Does (λ g. arc_write g command) slot.old slot.new }
{
    let levels = levels_of(slot);
    put_levels(slot, apply_arc(levels, command));
    ask(slot, keeps_identify(command));
    activate_by_arc(slot);
}

// A scene without a colour leaves what is staged.
#[tactic(auto, unfolding(colour::specs::Activation::recall))]
fn recall_colour(slot: &mut Slot, setting: ColourSetting)
    ensures { Does (λ g. with_colour g (recall g.colour setting)) slot.old slot.new }
{
    if setting.kind != ColourSetting::MASK {
        stage(slot, setting);
        activate_by_arc(slot);
    }
}

// Part 209, 9.11.4: the scene's level and its colour. There is no seventeenth scene.
#[tactic(auto, unfolding(gear::specs::Write::recall_scene, gear::specs::Scene::scene_at, gear::specs::Write::recalled_levels, colour::specs::Activation::recall))]
fn recall_scene(slot: &mut Slot, scene: u8)
    ensures { Does (λ g. recall_scene g scene) slot.old slot.new }
{
    if scene < 16 {
        let entry = setting_at(slot, scene_place(scene));
        let levels = levels_of(slot);
        put_levels(slot, recalled_levels(levels, entry.level));
        ask(slot, false);
        recall_colour(slot, entry.colour);
    } else {
        ask(slot, false);
    }
}

// A write by its command.
#[tactic(auto, unfolding(gear::specs::Write::write, gear::specs::Write::identify, gear::specs::Write::enable_write))]
fn write(slot: &mut Slot, command: StandardCommand, dtr0: u8)
    ensures { Does (λ g. (write g (Some command) dtr0).gear) slot.old slot.new }
{
    match command {
        StandardCommand::Arc(arc) => arc_write(slot, arc),
        StandardCommand::GoToScene(scene) => recall_scene(slot, scene),
        StandardCommand::Reset => reset_gear(slot),
        StandardCommand::IdentifyDevice => identify(slot),
        StandardCommand::Config(config) => config_write(slot, config, dtr0),
        StandardCommand::EnableWriteMemory => enable_write(slot),
    }
}

// A byte that no write has is refused and changes nothing.
fn write_byte(slot: &mut Slot, byte: u8, dtr0: u8) -> Answer
    ensures { Works (λ g. write g (command_of byte) dtr0) slot.old slot.new result }
{
    let command = command_of(byte).ok_or(Refusal::Byte)?;
    write(slot, command, dtr0);
    Ok(Reply::Done)
}

// A write by its byte, with DTR0.
pub fn apply_standard_write(slot: &mut [u8], byte: u8, dtr0: u8) -> Answer
    ensures { Served (λ g. apply_standard_write g byte dtr0) slot.old slot.new result }
{
    serve(slot, |slot| write_byte(slot, byte, dtr0))
}

// Direct arc power, which has no byte of its own.
pub fn direct_arc_power(slot: &mut [u8], level: u8) -> Answer
    ensures { Served (λ g. direct_arc_power g level) slot.old slot.new result }
{
    change(
        slot,
        |slot| arc_write(slot, ArcCommand::DirectArcPower(level)),
    )
}
