// A colour temperature under its limits: the few numbers of a colour that the limit store reads and changes.
ghost use Rattle.std.specs.Prelude.{◌≡◌};
ghost use Rattle.colour.specs.Bounded.{store_bounded};

use crate::limits::{Limits, TcLimit};
use crate::tint::ColorMode;

#[derive(Clone, Copy)]
pub struct BoundedTc {
    pub limits: Limits,
    pub tc: u16,
    pub mode: ColorMode,
    pub outside: bool,
}

impl BoundedTc {
    // Part 209, 9.13: the limit that the selector names, and then an active colour temperature is snapped and marked.
    #[tactic(auto, unfolding(crate::specs::Limits::selected, crate::specs::Steps::store_tc_limit, crate::specs::Steps::snapped, crate::specs::Steps::snaps))]
    pub fn store(self, value: u16, selector: u8) -> BoundedTc
        ensures { result ≡ store_bounded self value selector }
    {
        let Some(limit) = TcLimit::of(selector) else {
            return self;
        };
        let limits = self.limits.store(value, limit);
        if self.mode != ColorMode::Cct {
            return BoundedTc { limits, ..self };
        }
        let tc = limits.hold(self.tc);
        BoundedTc {
            limits,
            tc,
            outside: self.outside || tc != self.tc,
            ..self
        }
    }
}
