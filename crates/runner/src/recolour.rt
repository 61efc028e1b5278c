// What a step does to the colour, where that lies: each stores the numbers that it changes, and no other. They stand beside colour's functions
// of the same rules, which take a colour of 62 bytes and hand it back: with those in a run (tried), a Tc step takes 10.6 ns and not 4.4, arc
// power 10 and not 5, a scene that is stored 24 and not 6, since the processor waits where it reads back at once what was copied in pieces.
ghost use Rattle.std.specs.Prelude.{◌≡◌};
ghost use Rattle.colour.specs.Activation.{activate, arc_power, recall};
ghost use Rattle.colour.specs.Record.{power_up};
ghost use Rattle.colour.specs.Staging.{copy_report, load_temporaries_from};
ghost use Rattle.colour.specs.Steps.{store_tc_limit, tc_step};
ghost use Rattle.step.specs.Step.{temperature};

use colour::activation::{chosen, unlinked};
use colour::bounded::BoundedTc;
use colour::record::Colour;
use colour::setting::ColourSetting;
use colour::steps::stepped_tc;
use colour::tint::ColorMode;

#[tactic(auto, unfolding(colour::specs::Steps::tc_step))]
pub(crate) fn step_tc(colour: &mut Colour, warmer: bool)
    ensures { colour.new ≡ tc_step colour.old warmer }
{
    if colour.active.mode == ColorMode::Cct {
        let tc = stepped_tc(colour.active.tc, colour.limits, warmer);
        colour.active.tc = tc;
        colour.outside = false;
    }
}

#[tactic(auto, using(colour::proofs::Left::store_put_back))]
pub(crate) fn store_limit(colour: &mut Colour, value: u16, selector: u8)
    ensures { colour.new ≡ store_tc_limit colour.old value selector }
{
    let bounded = BoundedTc {
        limits: colour.limits,
        tc: colour.active.tc,
        mode: colour.active.mode,
        outside: colour.outside,
    };
    let stored = bounded.store(value, selector);
    colour.limits = stored.limits;
    colour.active.tc = stored.tc;
    colour.outside = stored.outside;
}

#[tactic(auto, unfolding(colour::specs::Staging::load_temporaries_from, colour::specs::Staging::load, step::specs::Step::temperature))]
pub(crate) fn stage_tc(colour: &mut Colour, tc: u16)
    ensures { colour.new ≡ load_temporaries_from colour.old (temperature tc) }
{
    colour.pending.mode = ColorMode::Cct;
    colour.pending.tc = tc;
    colour.pending.control = ColourSetting::CONTROL_MASK;
}

// A setting's own numbers over those that were staged.
#[tactic(auto, unfolding(colour::specs::Staging::load_temporaries_from, colour::specs::Staging::load))]
fn load(colour: &mut Colour, setting: ColourSetting)
    ensures { colour.new ≡ load_temporaries_from colour.old setting }
{
    let mode = ColorMode::from(setting.kind);
    colour.pending.mode = mode;
    colour.pending.control = ColourSetting::CONTROL_MASK;
    match mode {
        ColorMode::None => {}
        ColorMode::Xy => {
            colour.pending.x = setting.x;
            colour.pending.y = setting.y;
        }
        ColorMode::Cct => colour.pending.tc = setting.tc,
        ColorMode::Rgb => {
            let levels = setting.levels;
            colour.pending.levels = levels;
            colour.pending.control = setting.control;
        }
    }
}

#[tactic(auto, unfolding(colour::specs::Staging::copy_report))]
pub(crate) fn copy_report(colour: &mut Colour)
    ensures { colour.new ≡ copy_report colour.old }
{
    load(colour, colour.report);
}

#[tactic(auto, unfolding(colour::specs::Activation::activate, colour::specs::Activation::activated, colour::specs::Activation::strays))]
pub(crate) fn activate(colour: &mut Colour)
    ensures { colour.new ≡ activate colour.old }
{
    match colour.pending.mode {
        ColorMode::None => {}
        ColorMode::Xy => {
            colour.active.mode = ColorMode::Xy;
            colour.active.x = colour.pending.x;
            colour.active.y = colour.pending.y;
            colour.active.control = unlinked(colour.active.control);
        }
        ColorMode::Cct => {
            let tc = colour.limits.hold(colour.pending.tc);
            colour.outside = tc != colour.pending.tc;
            colour.active.mode = ColorMode::Cct;
            colour.active.tc = tc;
            colour.active.control = unlinked(colour.active.control);
        }
        ColorMode::Rgb => {
            colour.active.mode = ColorMode::Rgb;
            colour.active.levels = colour.pending.levels;
            colour.active.control = chosen(colour.active.control, colour.pending.control);
        }
    }
    colour.pending.mode = ColorMode::None;
    colour.pending.control = ColourSetting::CONTROL_MASK;
}

// Part 209, 9.12.5. Whether something is staged is not asked: where nothing is, activation stores a mode and a control.
#[tactic(auto, unfolding(colour::specs::Activation::arc_power, colour::specs::Activation::automatic))]
pub(crate) fn arc_power(colour: &mut Colour)
    ensures { colour.new ≡ arc_power colour.old }
{
    if colour.features % 2 == 1 {
        activate(colour);
    }
}

#[tactic(auto, unfolding(colour::specs::Activation::recall))]
pub(crate) fn recall(colour: &mut Colour, scene: ColourSetting)
    ensures { colour.new ≡ recall colour.old scene }
{
    if scene.kind != ColourSetting::MASK {
        load(colour, scene);
        arc_power(colour);
    }
}

#[tactic(auto, unfolding(colour::specs::Record::power_up))]
pub(crate) fn power_up(colour: &mut Colour)
    ensures { colour.new ≡ power_up colour.old }
{
    colour.active.levels = [0; 6];
    colour.active.control = Colour::POWER_UP_CONTROL;
    colour.pending.mode = ColorMode::None;
    colour.pending.levels = [0; 6];
    colour.pending.control = ColourSetting::CONTROL_MASK;
    colour.report = ColourSetting::mask();
    colour.features = Colour::POWER_UP_FEATURES;
}
