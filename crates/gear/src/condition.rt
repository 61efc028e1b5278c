// What no bus command sets: whether the gear is enabled, its lamp, whose marks a reset clears, and the faults that a test injects.
ghost use Rattle.std.specs.Prelude.{◌≡◌};
ghost use Rattle.gear.specs.Condition.{fresh_lamp, fresh_condition, reset_condition};

#[derive(Clone, Copy)]
pub struct Lamp {
    pub failure: bool,
    pub starting: bool,
}

#[derive(Clone, Copy)]
pub struct Faults {
    // Answers to drop, of a thousand.
    pub drop: u16,
    pub forced: u8,
    pub failure: u8,
    pub unstored: bool,
    pub holds: bool,
}

#[derive(Clone, Copy)]
pub struct Condition {
    pub enabled: bool,
    pub lamp: Lamp,
    pub faults: Faults,
}

impl Lamp {
    fn fresh() -> Lamp
        ensures { result ≡ fresh_lamp }
    {
        Lamp {
            failure: false,
            starting: false,
        }
    }
}

impl Condition {
    pub(crate) fn fresh() -> Condition
        ensures { result ≡ fresh_condition }
    {
        Condition {
            enabled: true,
            lamp: Lamp::fresh(),
            faults: Faults {
                drop: 0,
                forced: 0,
                failure: 0,
                unstored: false,
                holds: false,
            },
        }
    }

    // A reset keeps all but the lamp's marks.
    pub(crate) fn reset(self) -> Condition
        ensures { result ≡ reset_condition self }
    {
        Condition {
            lamp: Lamp::fresh(),
            ..self
        }
    }
}
