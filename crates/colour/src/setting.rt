// A colour as it is stored: in a scene, for power-on or system failure, or as a report.
ghost use Rattle.std.specs.Prelude.{◌≡◌};
ghost use Rattle.colour.specs.Setting.{mask, masked, factory};

use crate::record::Capabilities;

#[derive(Clone, Copy)]
pub struct ColourSetting {
    // Single bytes first: fourteen bytes without a gap, and sixteen with a level. The type stays a byte: a stored colour keeps any, known
    // or not (`Stages`, `gear_of` and the image of a slot).
    pub kind: u8,
    pub control: u8,
    pub x: u16,
    pub y: u16,
    pub tc: u16,
    pub levels: [u8; 6],
}

impl ColourSetting {
    // The type bytes of part 209.
    pub const XY: u8 = 0x10;

    pub const TC: u8 = 0x20;

    pub const RGBWAF: u8 = 0x80;

    pub const MASK: u8 = 0xFF;

    // 'No change' in a coordinate or a temperature, in a channel's level, and in a control.
    pub const VALUE_MASK: u16 = 0xFFFF;

    pub const LEVEL_MASK: u8 = 0xFF;

    pub const CONTROL_MASK: u8 = 0xFF;

    // No colour at all: every number says 'no change'.
    pub fn mask() -> ColourSetting
        ensures { result ≡ mask }
    {
        ColourSetting::masked(ColourSetting::MASK)
    }

    // A type byte over numbers that all say 'no change'.
    pub(crate) fn masked(kind: u8) -> ColourSetting
        ensures { result ≡ masked kind }
    {
        ColourSetting {
            kind,
            x: ColourSetting::VALUE_MASK,
            y: ColourSetting::VALUE_MASK,
            tc: ColourSetting::VALUE_MASK,
            levels: [ColourSetting::LEVEL_MASK; 6],
            control: ColourSetting::CONTROL_MASK,
        }
    }

    // What a gear leaves the factory with (part 209, table 8): the first type that it can do, and no numbers.
    // `dt8` says whether its type list has the colour type.
    #[tactic(auto, unfolding(crate::specs::Setting::factory))]
    pub fn factory(dt8: bool, can: Capabilities) -> ColourSetting
        ensures { result ≡ factory dt8 can }
    {
        if !dt8 {
            return ColourSetting::mask();
        }
        let kind = if can.xy {
            ColourSetting::XY
        } else if can.tc {
            ColourSetting::TC
        } else {
            ColourSetting::RGBWAF
        };
        ColourSetting::masked(kind)
    }
}
