// The colour record of a gear: what it can do, its limits, the active and the staged colour, the report and the features.
ghost use Rattle.std.specs.Prelude.{◌≡◌};
ghost use Rattle.colour.specs.Record.{fresh, reset, power_up, with_features, fitb};

use crate::limits::{Limits, Range};
use crate::setting::ColourSetting;
use crate::tint::Tint;

#[derive(Clone, Copy)]
pub struct Capabilities {
    pub tc: bool,
    pub xy: bool,
    pub channels: u8,
}

#[derive(Clone, Copy)]
pub struct Colour {
    pub can: Capabilities,
    pub limits: Limits,
    pub active: Tint,
    // An active colour temperature was asked for beyond the limits.
    pub outside: bool,
    pub pending: Tint,
    pub report: ColourSetting,
    pub features: u8,
}

impl Colour {
    // Gear features at power-up: automatic activation on.
    pub const POWER_UP_FEATURES: u8 = 1;
    // Every channel linked.
    pub const POWER_UP_CONTROL: u8 = 0x3F;

    // The colour of a new gear with these physical limits: no colour active, none staged.
    #[tactic(auto, unfolding(crate::specs::Record::fresh))]
    pub fn fresh(can: Capabilities, physical: Range) -> Colour
        ensures { result ≡ fresh can physical.coolest physical.warmest }
    {
        Colour {
            can,
            limits: Limits {
                stored: physical,
                physical,
            },
            active: Tint::dark(Colour::POWER_UP_CONTROL),
            outside: false,
            pending: Tint::dark(ColourSetting::CONTROL_MASK),
            report: ColourSetting::mask(),
            features: Colour::POWER_UP_FEATURES,
        }
    }

    // Part 209, table 8: a reset keeps the active colour and its mark; the rest is that of a new gear.
    #[tactic(auto, unfolding(crate::specs::Record::reset, crate::specs::Record::fresh))]
    pub fn reset(self) -> Colour
        ensures { result ≡ reset self }
    {
        Colour {
            active: self.active,
            outside: self.outside,
            ..Colour::fresh(self.can, self.limits.physical)
        }
    }

    // Part 209, table 8: power-up darkens the channels, links them all and forgets what is staged and the report.
    // The staged coordinates and temperature stay behind.
    #[tactic(auto, unfolding(crate::specs::Record::power_up))]
    pub fn power_up(self) -> Colour
        ensures { result ≡ power_up self }
    {
        Colour {
            active: Tint {
                levels: [0; 6],
                control: Colour::POWER_UP_CONTROL,
                ..self.active
            },
            pending: Tint {
                levels: [0; 6],
                ..self.pending.unstaged()
            },
            report: ColourSetting::mask(),
            features: Colour::POWER_UP_FEATURES,
            ..self
        }
    }

    #[tactic(auto, unfolding(crate::specs::Record::with_features))]
    pub fn with_features(self, features: u8) -> Colour
        ensures { result ≡ with_features self features }
    {
        Colour { features, ..self }
    }

    // Document 01's fit record, as far as colour goes.
    #[tactic(auto, unfolding(crate::specs::Record::fitb))]
    pub fn fit(self) -> bool
        ensures { result ≡ fitb self }
    {
        self.can.channels <= 6 && self.limits.fit() && self.active.lies_within(self.limits)
    }
}
