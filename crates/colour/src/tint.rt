// A colour with its mode: the active one, or the one that is staged.
ghost use Rattle.std.specs.Prelude.{◌≡◌};
ghost use Rattle.colour.specs.Tint.{colour_type_byte, mode_of, face, captured, unstaged, dark, lies_within};

use crate::limits::Limits;
use crate::setting::ColourSetting;

// The Rust's enum, its `None` too: README says that this follows the Rust in names and structure.
#[derive(Clone, Copy, PartialEq, Eq, Debug)]
pub enum ColorMode {
    None,
    Cct,
    Xy,
    Rgb,
}

#[derive(Clone, Copy)]
pub struct Tint {
    pub mode: ColorMode,
    pub x: u16,
    pub y: u16,
    pub tc: u16,
    pub levels: [u8; 6],
    pub control: u8,
}

// The type byte of a mode; no mode has the mask.
impl From<ColorMode> for u8 {
    ghost from_gives = { λ mode byte. byte ≡ colour_type_byte mode };

    fn from(mode: ColorMode) -> u8 {
        match mode {
            ColorMode::None => ColourSetting::MASK,
            ColorMode::Xy => ColourSetting::XY,
            ColorMode::Cct => ColourSetting::TC,
            ColorMode::Rgb => ColourSetting::RGBWAF,
        }
    }
}

// The mode of a type byte: none for any byte but the three.
impl From<u8> for ColorMode {
    ghost from_gives = { λ kind mode. mode ≡ mode_of kind };

    fn from(kind: u8) -> ColorMode {
        match kind {
            ColourSetting::XY => ColorMode::Xy,
            ColourSetting::TC => ColorMode::Cct,
            ColourSetting::RGBWAF => ColorMode::Rgb,
            _ => ColorMode::None,
        }
    }
}

impl Tint {
    // No mode, and every number 0 but the control.
    pub(crate) fn dark(control: u8) -> Tint
        ensures { result ≡ dark control }
    {
        Tint {
            mode: ColorMode::None,
            x: 0,
            y: 0,
            tc: 0,
            levels: [0; 6],
            control,
        }
    }

    // A colour temperature that lies within the effective limits; the other modes have none to lie outside.
    #[tactic(auto, unfolding(crate::specs::Tint::lies_within))]
    pub(crate) fn lies_within(self, limits: Limits) -> bool
        ensures { result ≡ lies_within self limits }
    {
        self.mode != ColorMode::Cct
            || (limits.effective_coolest()..=limits.effective_warmest()).contains(&self.tc)
    }

    // Every number as it stands, under the type byte of the mode.
    #[tactic(auto, unfolding(crate::specs::Tint::face))]
    pub fn face(self) -> ColourSetting
        ensures { result ≡ face self }
    {
        let levels = self.levels;
        ColourSetting {
            kind: u8::from(self.mode),
            x: self.x,
            y: self.y,
            tc: self.tc,
            levels,
            control: self.control,
        }
    }

    // The mode's own numbers, every other one masked.
    #[tactic(auto, unfolding(crate::specs::Tint::captured))]
    pub fn captured(self) -> ColourSetting
        ensures { result ≡ captured self }
    {
        let masked = ColourSetting::masked(u8::from(self.mode));
        match self.mode {
            ColorMode::None => masked,
            ColorMode::Xy => ColourSetting {
                x: self.x,
                y: self.y,
                ..masked
            },
            ColorMode::Cct => ColourSetting {
                tc: self.tc,
                ..masked
            },
            ColorMode::Rgb => {
                let levels = self.levels;
                ColourSetting {
                    levels,
                    control: self.control,
                    ..masked
                }
            }
        }
    }

    // Nothing staged any more: the numbers stay behind under no mode, and the control is masked.
    pub(crate) fn unstaged(self) -> Tint
        ensures { result ≡ unstaged self }
    {
        Tint {
            mode: ColorMode::None,
            control: ColourSetting::CONTROL_MASK,
            ..self
        }
    }
}
