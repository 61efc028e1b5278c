// The write commands of part 102, by their bytes: the high half of a byte is the block, the low half the scene, the group or
// the command within the block.
ghost use Rattle.std.specs.Prelude.{◌≡◌};
ghost use Rattle.gear.specs.Command.{level_command, config_command, command_of};

use level::arc::ArcCommand;

// Commands that store a setting.
#[derive(Clone, Copy)]
pub enum ConfigCommand {
    SetMaxLevel,
    SetMinLevel,
    SetSystemFailureLevel,
    SetPowerOnLevel,
    SetFadeTime,
    SetFadeRate,
    SetExtendedFadeTime,
    SetScene(u8),
    RemoveScene(u8),
    AddToGroup(u8),
    RemoveFromGroup(u8),
}

#[derive(Clone, Copy)]
pub enum StandardCommand {
    Arc(ArcCommand),
    GoToScene(u8),
    Reset,
    IdentifyDevice,
    Config(ConfigCommand),
    EnableWriteMemory,
}

// Bytes 0 to 15.
#[tactic(auto, unfolding(crate::specs::Command::level_command))]
fn level_command(low: u8) -> Option<StandardCommand>
    ensures { result ≡ level_command low }
{
    let command = match low {
        0 => ArcCommand::Off,
        1 => ArcCommand::Up,
        2 => ArcCommand::Down,
        3 => ArcCommand::StepUp,
        4 => ArcCommand::StepDown,
        5 => ArcCommand::RecallMaxLevel,
        6 => ArcCommand::RecallMinLevel,
        7 => ArcCommand::StepDownAndOff,
        8 => ArcCommand::OnAndStepUp,
        10 => ArcCommand::GoToLastActiveLevel,
        _ => return None,
    };
    Some(StandardCommand::Arc(command))
}

// Bytes 32 to 47.
#[tactic(auto, unfolding(crate::specs::Command::config_command))]
fn config_command(low: u8) -> Option<StandardCommand>
    ensures { result ≡ config_command low }
{
    match low {
        0 => Some(StandardCommand::Reset),
        5 => Some(StandardCommand::IdentifyDevice),
        10 => Some(StandardCommand::Config(ConfigCommand::SetMaxLevel)),
        11 => Some(StandardCommand::Config(ConfigCommand::SetMinLevel)),
        12 => Some(StandardCommand::Config(ConfigCommand::SetSystemFailureLevel)),
        13 => Some(StandardCommand::Config(ConfigCommand::SetPowerOnLevel)),
        14 => Some(StandardCommand::Config(ConfigCommand::SetFadeTime)),
        15 => Some(StandardCommand::Config(ConfigCommand::SetFadeRate)),
        _ => None,
    }
}

// None where no write has the byte: an error in its place, as TryFrom wants one, would say no more. The bus's byte is decoded here alone.
#[tactic(auto, unfolding(crate::specs::Command::command_of))]
pub fn command_of(byte: u8) -> Option<StandardCommand>
    ensures { result ≡ command_of byte }
{
    match (byte / 16, byte % 16) {
        (0, low) => level_command(low),
        (1, scene) => Some(StandardCommand::GoToScene(scene)),
        (2, low) => config_command(low),
        (3, 0) => Some(StandardCommand::Config(ConfigCommand::SetExtendedFadeTime)),
        (4, scene) => Some(StandardCommand::Config(ConfigCommand::SetScene(scene))),
        (5, scene) => Some(StandardCommand::Config(ConfigCommand::RemoveScene(scene))),
        (6, group) => Some(StandardCommand::Config(ConfigCommand::AddToGroup(group))),
        (7, group) => Some(StandardCommand::Config(ConfigCommand::RemoveFromGroup(group))),
        (8, 1) => Some(StandardCommand::EnableWriteMemory),
        _ => None,
    }
}
