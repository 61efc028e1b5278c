// Staging a colour, and taking the staged colour away.
ghost use Rattle.std.specs.Prelude.{◌≡◌};
ghost use Rattle.colour.specs.Staging.{load, load_temporaries_from, take_staged_colour, copy_report};

use crate::record::Colour;
use crate::setting::ColourSetting;
use crate::tint::{ColorMode, Tint};

// The staged colour taken away, and the record without it.
#[derive(Clone, Copy)]
pub struct Taken {
    pub setting: ColourSetting,
    pub colour: Colour,
}

// What a setting leaves staged: its own numbers over those that were there; an unknown type unstages.
#[tactic(auto, unfolding(crate::specs::Staging::load))]
fn load(pending: Tint, setting: ColourSetting) -> Tint
    ensures { result ≡ load pending setting }
{
    let mode = ColorMode::from(setting.kind);
    match mode {
        ColorMode::None => pending.unstaged(),
        ColorMode::Xy => Tint {
            mode,
            x: setting.x,
            y: setting.y,
            control: ColourSetting::CONTROL_MASK,
            ..pending
        },
        ColorMode::Cct => Tint {
            mode,
            tc: setting.tc,
            control: ColourSetting::CONTROL_MASK,
            ..pending
        },
        ColorMode::Rgb => {
            let levels = setting.levels;
            Tint {
                mode,
                levels,
                control: setting.control,
                ..pending
            }
        }
    }
}

#[tactic(auto, unfolding(crate::specs::Staging::load_temporaries_from))]
pub fn load_temporaries_from(colour: Colour, setting: ColourSetting) -> Colour
    ensures { result ≡ load_temporaries_from colour setting }
{
    Colour {
        pending: load(colour.pending, setting),
        ..colour
    }
}

#[tactic(auto, unfolding(crate::specs::Staging::copy_report))]
pub fn copy_report_to_temporary(colour: Colour) -> Colour
    ensures { result ≡ copy_report colour }
{
    load_temporaries_from(colour, colour.report)
}

// The staged colour, or `kept` where nothing is staged.
#[tactic(auto, unfolding(crate::specs::Staging::take_staged_colour))]
pub fn take_staged_colour(colour: Colour, kept: ColourSetting) -> Taken
    ensures { result ≡ take_staged_colour colour kept }
{
    if colour.pending.mode == ColorMode::None {
        return Taken {
            setting: kept,
            colour,
        };
    }
    Taken {
        setting: colour.pending.captured(),
        colour: Colour {
            pending: colour.pending.unstaged(),
            ..colour
        },
    }
}
