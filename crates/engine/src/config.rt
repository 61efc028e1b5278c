// Commands that store a setting, on a slot (part 102, 11.4). Each ends the walk, the reset state and the identify mark.
ghost use Rattle.gear.specs.Parts.{with_light};
ghost use Rattle.gear.specs.Write.{config_write, set_member, set_min};
ghost use Rattle.level.specs.Levels.{set_max_level};
ghost use Rattle.slot.specs.Held.{Does};

use crate::levels::put_levels;
use crate::marks::configure;
use crate::serve::Slot;
use crate::storing::{remove_scene, set_power_on_level, set_scene, set_system_failure_level};
use gear::command::ConfigCommand;
use gear::parts::{extended_fade, set_min};
use slot::parts::{levels_of, unit_of};
use slot::places::{EXTENDED_FADE, FADE_RATE, FADE_TIME, GROUPS};

fn set_max_level(slot: &mut Slot, level: u8)
    ensures { Does (λ g. with_light g (set_max_level g.levels level) g.marks g.colour) slot.old slot.new }
{
    let levels = levels_of(slot).set_max_level(level);
    put_levels(slot, levels);
}

fn set_min_level(slot: &mut Slot, level: u8)
    ensures { Does (λ g. with_light g (set_min g.unit g.levels level) g.marks g.colour) slot.old slot.new }
{
    let levels = set_min(unit_of(slot), levels_of(slot), level);
    put_levels(slot, levels);
}

// There is no seventeenth group.
#[tactic(auto, unfolding(gear::specs::Scene::stored))]
fn set_member(slot: &mut Slot, group: u8, member: bool)
    ensures { Does (λ g. set_member g group member) slot.old slot.new }
{
    if group < 16 {
        slot[GROUPS + usize::from(group)] = u8::from(member);
    }
}

#[tactic(auto, unfolding(gear::specs::Write::config_write))]
pub(crate) fn config_write(slot: &mut Slot, command: ConfigCommand, dtr0: u8)
    ensures { Does (λ g. config_write g command dtr0) slot.old slot.new }
{
    configure(slot);
    match command {
        ConfigCommand::SetMaxLevel => set_max_level(slot, dtr0),
        ConfigCommand::SetMinLevel => set_min_level(slot, dtr0),
        ConfigCommand::SetSystemFailureLevel => set_system_failure_level(slot, dtr0),
        ConfigCommand::SetPowerOnLevel => set_power_on_level(slot, dtr0),
        ConfigCommand::SetFadeTime => slot[FADE_TIME] = dtr0,
        ConfigCommand::SetFadeRate => slot[FADE_RATE] = dtr0,
        ConfigCommand::SetExtendedFadeTime => slot[EXTENDED_FADE] = extended_fade(dtr0),
        ConfigCommand::SetScene(scene) => set_scene(slot, scene, dtr0),
        ConfigCommand::RemoveScene(scene) => remove_scene(slot, scene),
        ConfigCommand::AddToGroup(group) => set_member(slot, group, true),
        ConfigCommand::RemoveFromGroup(group) => set_member(slot, group, false),
    }
}
