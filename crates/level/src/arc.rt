// Commands that change the arc power, and the level that each asks for.
ghost use Rattle.std.specs.Prelude.{◌≡◌};
ghost use Rattle.level.specs.Arc.{level_up, level_down, step_down_and_off, on_and_step_up, arc_power, arc_levels};

use crate::levels::Levels;

// The commands of part 102 that change the arc power.
#[derive(Clone, Copy)]
pub enum ArcCommand {
    DirectArcPower(u8),
    Off,
    Up,
    Down,
    StepUp,
    StepDown,
    RecallMaxLevel,
    RecallMinLevel,
    StepDownAndOff,
    OnAndStepUp,
    GoToLastActiveLevel,
}

// How far Up and Down go.
const UP_DOWN_STEP: u8 = 8;

// Part 102, 11.3.3 and 11.3.5: only from a level above 0.
#[tactic(auto, unfolding(crate::specs::Arc::level_up))]
fn level_up(levels: Levels, delta: u8) -> Levels
    ensures { result ≡ level_up levels delta }
{
    if 0 < levels.level {
        return levels.set_level(levels.level.saturating_add(delta));
    }
    levels
}

#[tactic(auto, unfolding(crate::specs::Arc::level_down))]
fn level_down(levels: Levels, delta: u8) -> Levels
    ensures { result ≡ level_down levels delta }
{
    if 0 < levels.level {
        return levels.set_level(levels.level.saturating_sub(delta).max(levels.min));
    }
    levels
}

#[tactic(auto, unfolding(crate::specs::Arc::step_down_and_off))]
fn step_down_and_off(levels: Levels) -> Levels
    ensures { result ≡ step_down_and_off levels }
{
    if levels.level <= levels.min {
        return levels.set_level(0);
    }
    levels.set_level(levels.level.saturating_sub(1))
}

#[tactic(auto, unfolding(crate::specs::Arc::on_and_step_up))]
fn on_and_step_up(levels: Levels) -> Levels
    ensures { result ≡ on_and_step_up levels }
{
    if levels.level == 0 {
        return levels.set_level(levels.min);
    }
    levels.set_level(levels.level.saturating_add(1))
}

// The mask asks for no level.
#[tactic(auto, unfolding(crate::specs::Arc::arc_power))]
fn apply_dapc(levels: Levels, asked: u8) -> Levels
    ensures { result ≡ arc_power levels asked }
{
    if asked == Levels::MASK {
        return levels;
    }
    levels.set_level(asked)
}

#[tactic(auto, unfolding(crate::specs::Arc::arc_levels))]
pub fn apply_arc(levels: Levels, command: ArcCommand) -> Levels
    ensures { result ≡ arc_levels levels command }
{
    match command {
        ArcCommand::DirectArcPower(level) => apply_dapc(levels, level),
        ArcCommand::Off => levels.set_level(0),
        ArcCommand::Up => level_up(levels, UP_DOWN_STEP),
        ArcCommand::Down => level_down(levels, UP_DOWN_STEP),
        ArcCommand::StepUp => level_up(levels, 1),
        ArcCommand::StepDown => level_down(levels, 1),
        ArcCommand::RecallMaxLevel => levels.set_level(levels.max),
        ArcCommand::RecallMinLevel => levels.set_level(levels.min),
        ArcCommand::StepDownAndOff => step_down_and_off(levels),
        ArcCommand::OnAndStepUp => on_and_step_up(levels),
        ArcCommand::GoToLastActiveLevel => levels.set_level(levels.last),
    }
}
