// The limits of a colour temperature, in mirek: those stored for the gear, and the physical ones behind them.
ghost use Rattle.std.specs.Prelude.{◌≡◌};
ghost use Rattle.colour.specs.Activation.{within};
ghost use Rattle.colour.specs.Limits.{effective, effective_coolest, effective_warmest, limits_fit, pulled, selected, selector_of, store_coolest, store_warmest, store_physical, store_limit};

use numbers::clamp;

// What a limit store names by its selector (part 209, table 9).
#[derive(Clone, Copy, PartialEq, Eq, Debug)]
pub enum TcLimit {
    Coolest,
    Warmest,
    PhysicalCoolest,
    PhysicalWarmest,
}

impl TcLimit {
    // None for a selector that names no limit: an error in its place, as TryFrom wants one, would say no more.
    #[tactic(auto, unfolding(crate::specs::Limits::selected))]
    pub(crate) fn of(selector: u8) -> Option<TcLimit>
        ensures { result ≡ selected selector }
    {
        match selector {
            0 => Some(TcLimit::Coolest),
            1 => Some(TcLimit::Warmest),
            2 => Some(TcLimit::PhysicalCoolest),
            3 => Some(TcLimit::PhysicalWarmest),
            _ => None,
        }
    }
}

#[derive(Clone, Copy)]
pub struct Range {
    pub coolest: u16,
    pub warmest: u16,
}

#[derive(Clone, Copy)]
pub struct Limits {
    pub stored: Range,
    pub physical: Range,
}

impl Limits {
    // A stored limit of this value gives way to the physical one.
    pub const UNSET: u16 = 0xFFFF;

    #[tactic(auto, unfolding(crate::specs::Limits::effective_coolest))]
    pub fn effective_coolest(self) -> u16
        ensures { result ≡ effective_coolest self }
    {
        effective(self.stored.coolest, self.physical.coolest)
    }

    #[tactic(auto, unfolding(crate::specs::Limits::effective_warmest))]
    pub fn effective_warmest(self) -> u16
        ensures { result ≡ effective_warmest self }
    {
        effective(self.stored.warmest, self.physical.warmest)
    }

    // A colour temperature held within the effective limits.
    pub fn hold(self, tc: u16) -> u16
        ensures { result ≡ within tc self }
    {
        clamp(tc, self.effective_coolest(), self.effective_warmest())
    }

    // Physical coolest, effective coolest, effective warmest and physical warmest in this order, and below 65,535.
    #[tactic(auto, unfolding(crate::specs::Limits::limits_fit))]
    pub(crate) fn fit(self) -> bool
        ensures { result ≡ limits_fit self }
    {
        let coolest = self.effective_coolest();
        let warmest = self.effective_warmest();
        self.physical.coolest <= coolest
            && coolest <= warmest
            && warmest <= self.physical.warmest
            && self.physical.warmest < Limits::UNSET
    }

    // The coolest limit, within the physical pair; it drags the warmest along where they would cross.
    #[tactic(auto, unfolding(crate::specs::Limits::store_coolest, crate::specs::Limits::pulled))]
    fn store_coolest(self, value: u16) -> Limits
        ensures { result ≡ store_coolest value self }
    {
        let coolest = pulled(value, self.physical);
        let mut stored = Range {
            coolest,
            ..self.stored
        };
        if value != Limits::UNSET && self.effective_warmest() < coolest {
            stored.warmest = coolest;
        }
        Limits { stored, ..self }
    }

    // Its mirror: one function for both would ask which end it is for the field, for the way they cross and for the one that is dragged.
    #[tactic(auto, unfolding(crate::specs::Limits::store_warmest, crate::specs::Limits::pulled))]
    fn store_warmest(self, value: u16) -> Limits
        ensures { result ≡ store_warmest value self }
    {
        let warmest = pulled(value, self.physical);
        let mut stored = Range {
            warmest,
            ..self.stored
        };
        if value != Limits::UNSET && warmest < self.effective_coolest() {
            stored.coolest = warmest;
        }
        Limits { stored, ..self }
    }

    // New physical limits pull the stored ones in.
    #[tactic(auto, unfolding(crate::specs::Limits::store_physical))]
    fn with_physical(self, physical: Range) -> Limits
        ensures { result ≡ store_physical physical.coolest physical.warmest self }
    {
        Limits {
            stored: Range {
                coolest: pulled(self.stored.coolest, physical),
                warmest: pulled(self.stored.warmest, physical),
            },
            physical,
        }
    }

    // Part 209, table 9. A physical limit stops at the other one and ignores 65,535.
    #[tactic(auto, unfolding(crate::specs::Limits::store_limit))]
    pub(crate) fn store(self, value: u16, limit: TcLimit) -> Limits
        ensures { result ≡ store_limit self value (selector_of limit) }
    {
        let Range { coolest, warmest } = self.physical;
        match limit {
            TcLimit::Coolest => self.store_coolest(value),
            TcLimit::Warmest => self.store_warmest(value),
            _ if value == Limits::UNSET => self,
            TcLimit::PhysicalCoolest => self.with_physical(Range {
                coolest: value.min(warmest),
                warmest,
            }),
            TcLimit::PhysicalWarmest => self.with_physical(Range {
                coolest,
                warmest: value.max(coolest),
            }),
        }
    }
}

// The limit in effect: the stored one, or the physical one behind it where none is stored.
fn effective(stored: u16, physical: u16) -> u16
    ensures { result ≡ effective stored physical }
{
    if stored == Limits::UNSET {
        physical
    } else {
        stored
    }
}

// A limit held within physical ones; 65,535 is no limit and stays.
#[tactic(auto, unfolding(crate::specs::Limits::pulled))]
fn pulled(limit: u16, physical: Range) -> u16
    ensures { result ≡ pulled limit physical.coolest physical.warmest }
{
    if limit == Limits::UNSET {
        return limit;
    }
    clamp(limit, physical.coolest, physical.warmest)
}
