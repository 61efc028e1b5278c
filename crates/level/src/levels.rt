// The level, the last one that was above 0, the limits, and the mark of a level that was asked for beyond them.
ghost use Rattle.std.specs.Prelude.{◌≡◌};
ghost use Rattle.level.specs.Levels.{set_level, readjust, set_min_level, set_max_level, fresh, power_up, levels_fit};

use numbers::clamp;

#[derive(Clone, Copy)]
pub struct Levels {
    pub level: u8,
    pub last: u8,
    pub min: u8,
    pub max: u8,
    pub error: bool,
}

impl Levels {
    // The highest level, and the number that asks for none.
    pub const MAX: u8 = 254;

    pub const MASK: u8 = 255;

    // Off, between the physical minimum and the highest level.
    pub fn fresh(minimum: u8) -> Levels
        ensures { result ≡ fresh minimum }
    {
        Levels {
            level: 0,
            last: Levels::MAX,
            min: minimum,
            max: Levels::MAX,
            error: false,
        }
    }

    // Part 102, 9.13: the power-on level as it is stored, unless it is the mask.
    #[tactic(auto, unfolding(crate::specs::Levels::power_up))]
    pub fn power_up(self, stored: u8) -> Levels
        ensures { result ≡ power_up self stored }
    {
        Levels {
            level: if stored == Levels::MASK {
                self.level
            } else {
                stored
            },
            last: self.max,
            error: false,
            ..self
        }
    }

    // Part 102, 9.16.5: 0 is off; any other level is held within the limits, and marked where that moved it.
    #[tactic(auto, unfolding(crate::specs::Levels::set_level, crate::specs::Levels::held))]
    pub fn set_level(self, asked: u8) -> Levels
        ensures { result ≡ set_level self asked }
    {
        if asked == 0 {
            return Levels {
                level: 0,
                error: false,
                ..self
            };
        }
        let level = clamp(asked, self.min, self.max);
        Levels {
            level,
            last: if 0 < level { level } else { self.last },
            error: level != asked,
            ..self
        }
    }

    // A level above 0 is pulled into new limits, and marked where that moves it.
    #[tactic(auto, unfolding(crate::specs::Levels::readjust, crate::specs::Levels::readjusts))]
    fn readjust_level_into_bounds(self) -> Levels
        ensures { result ≡ readjust self }
    {
        let level = clamp(self.level, self.min, self.max);
        if self.level == 0 || level == self.level {
            return self;
        }
        Levels {
            level,
            last: level,
            error: true,
            ..self
        }
    }

    // The lowest level, not below the floor and not above the highest.
    #[tactic(auto, unfolding(crate::specs::Levels::set_min_level))]
    pub fn set_min_level(self, floor: u8, asked: u8) -> Levels
        ensures { result ≡ set_min_level self floor asked }
    {
        let min = if asked <= floor {
            floor
        } else {
            asked.min(self.max)
        };
        Levels { min, ..self }.readjust_level_into_bounds()
    }

    // The highest level, not below the lowest and not the mask.
    #[tactic(auto, unfolding(crate::specs::Levels::set_max_level))]
    pub fn set_max_level(self, asked: u8) -> Levels
        ensures { result ≡ set_max_level self asked }
    {
        let max = if asked <= self.min {
            self.min
        } else {
            asked.min(Levels::MAX)
        };
        Levels { max, ..self }.readjust_level_into_bounds()
    }

    // Document 01's fit record, as far as levels go.
    #[tactic(auto, unfolding(crate::specs::Levels::levels_fit))]
    pub fn fit(self, floor: u8) -> bool
        ensures { result ≡ levels_fit floor self }
    {
        floor <= self.min && self.min <= self.max && self.max <= Levels::MAX
    }
}
