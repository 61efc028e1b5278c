// A reset on a slot (part 102, 11.4.2; part 209, table 8): the profile, enabled, the faults and the active colour stay.
ghost use Rattle.std.specs.Prelude.{replicate};
ghost use Rattle.bank.specs.Build.{build};
ghost use Rattle.colour.specs.Record.{reset};
ghost use Rattle.colour.specs.Setting.{factory};
ghost use Rattle.gear.specs.Condition.{reset_condition};
ghost use Rattle.gear.specs.Marks.{reset_marks};
ghost use Rattle.gear.specs.Parts.{with_banks, with_colour, with_condition, with_light, with_marks, with_scenes, with_settings};
ghost use Rattle.gear.specs.Profile.{is_type};
ghost use Rattle.gear.specs.Record.{reset_gear};
ghost use Rattle.gear.specs.Settings.{factory_settings, unset};
ghost use Rattle.level.specs.Levels.{fresh};
ghost use Rattle.slot.specs.Held.{Does, Tells};

use crate::levels::put_levels;
use crate::serve::Slot;
use crate::stores::put_setting;
use bank::build::Banks;
use colour::record::Colour;
use colour::setting::ColourSetting;
use gear::settings::LevelSetting;
use level::levels::Levels;
use slot::parts::{WALK_OFF, colour_of, unit_of};
use slot::places::{
    ADJUSTABLE, CONTROL, COOLEST, CURVE, CYCLED, EXTENDED_FADE, FADE_RATE, FADE_TIME, FAILURE,
    FEATURES, FRAME, GROUPS, IDENTITY, LAMP_FAILURE, LAMP_STARTING, MINIMUM, ON, PHYSICAL_COOLEST,
    PROFILE, RESET_STATE, SCENES, SPARE, STAGED, WALK,
};

#[tactic(auto, unfolding(slot::specs::Image::image_of))]
fn reset_levels(slot: &mut Slot)
    ensures { Does (λ g. with_light g (fresh g.unit.minimum) g.marks g.colour) slot.old slot.new }
{
    let minimum = slot[MINIMUM];
    put_levels(slot, Levels::fresh(minimum));
}

fn reset_marks(slot: &mut Slot)
    ensures { Does (λ g. with_marks g reset_marks) slot.old slot.new }
{
    slot[WALK] = WALK_OFF;
    slot[RESET_STATE] = 1;
    slot[CYCLED..ADJUSTABLE].fill(0);
    slot[FRAME..FRAME + 2].fill(0);
}

#[tactic(auto, unfolding(slot::specs::Image::image_of))]
fn reset_lamp(slot: &mut Slot)
    ensures { Does (λ g. with_condition g (reset_condition g.condition)) slot.old slot.new }
{
    slot[LAMP_FAILURE] = 0;
    slot[LAMP_STARTING] = 0;
}

// The stored limits become the physical ones; nothing is staged, and nothing reported.
fn reset_colour(slot: &mut Slot)
    ensures { Does (λ g. with_colour g (reset g.colour)) slot.old slot.new }
{
    slot.copy_within(PHYSICAL_COOLEST..PHYSICAL_COOLEST + 4, COOLEST);
    slot[FEATURES] = Colour::POWER_UP_FEATURES;
    slot[STAGED..STAGED + CONTROL].fill(0);
    slot[STAGED + CONTROL..ON].fill(ColourSetting::MASK);
}

// The colour that a gear leaves the factory with.
fn factory_colour(slot: &Slot) -> ColourSetting
    ensures { Tells (λ g. factory (is_type g.unit 8) g.colour.can) slot.now result }
{
    ColourSetting::factory(unit_of(slot).is_dt8(), colour_of(slot).can)
}

// For power-on and for system failure, the highest level with that colour.
fn reset_settings(slot: &mut Slot)
    ensures { Does (λ g. with_settings g (factory_settings g.unit g.colour.can) g.colour) slot.old slot.new }
{
    let setting = LevelSetting {
        colour: factory_colour(slot),
        level: Levels::MAX,
    };
    slot[FADE_TIME] = 0;
    slot[FADE_RATE] = 7;
    slot[EXTENDED_FADE] = 0;
    slot[CURVE] = 0;
    slot[GROUPS..GROUPS + 16].fill(0);
    put_setting(slot, ON, setting);
    put_setting(slot, FAILURE, setting);
}

// Sixteen scenes without a level and without a colour.
fn reset_scenes(slot: &mut Slot)
    ensures { Does (λ g. with_scenes g (replicate 16 unset) g.colour) slot.old slot.new }
{
    slot[SCENES..IDENTITY].fill(ColourSetting::MASK);
}

fn reset_banks(slot: &mut Slot)
    ensures { Does (λ g. with_banks g (build g.unit.random)) slot.old slot.new }
{
    let banks = Banks::build(unit_of(slot).random);
    slot[IDENTITY..PROFILE].copy_from_slice(&banks.identity);
    slot[PROFILE..SPARE].copy_from_slice(&banks.profile);
}

fn reset_state(slot: &mut Slot)
    ensures { Does (λ g. with_condition (with_light g (fresh g.unit.minimum) reset_marks (reset g.colour)) (reset_condition g.condition)) slot.old slot.new }
{
    reset_levels(slot);
    reset_marks(slot);
    reset_colour(slot);
    reset_lamp(slot);
}

#[tactic(auto, unfolding(gear::specs::Record::reset_gear, colour::specs::Record::reset))]
pub(crate) fn reset_gear(slot: &mut Slot)
    ensures { Does (λ g. reset_gear g.unit g.condition g.colour) slot.old slot.new }
{
    reset_state(slot);
    reset_settings(slot);
    reset_scenes(slot);
    reset_banks(slot);
}
