// What a gear remembers of the frames that it heard, and how each kind of command changes that.
ghost use Rattle.std.specs.Prelude.{◌≡◌};
ghost use Rattle.gear.specs.Marks.{fresh_marks, reset_marks, asked, configured, identified, enabled, with_walk, with_pair, power_up_marks, walk_fit};

#[derive(Clone, Copy)]
pub struct Marks {
    // The next entry of the type list to tell, while a walk is on.
    pub walk: Option<u8>,
    // The frame that was heard once and waits for its second copy.
    pub pair: Option<u16>,
    // Nothing was configured since the last reset.
    pub reset: bool,
    // No arc power command was heard since the last power cycle.
    pub cycled: bool,
    pub initialise: bool,
    pub withdrawn: bool,
    pub identifying: bool,
    // Memory writes are enabled.
    pub writable: bool,
}

impl Marks {
    pub(crate) fn fresh() -> Marks
        ensures { result ≡ fresh_marks }
    {
        Marks {
            walk: None,
            pair: None,
            reset: true,
            cycled: true,
            initialise: false,
            withdrawn: false,
            identifying: false,
            writable: false,
        }
    }

    // After a reset: as fresh, but no power cycle is seen.
    pub(crate) fn reset() -> Marks
        ensures { result ≡ reset_marks }
    {
        Marks {
            cycled: false,
            ..Marks::fresh()
        }
    }

    // A command that asks for a level ends the walk, the power-cycle mark and the identify mark, unless it keeps that one.
    #[tactic(auto, unfolding(crate::specs::Marks::asked))]
    pub fn asked(self, keeps: bool) -> Marks
        ensures { result ≡ asked self keeps }
    {
        Marks {
            walk: None,
            cycled: false,
            identifying: keeps && self.identifying,
            ..self
        }
    }

    // A setting ends the walk, the reset state and the identify mark.
    #[tactic(auto, unfolding(crate::specs::Marks::configured))]
    pub fn configured(self) -> Marks
        ensures { result ≡ configured self }
    {
        Marks {
            walk: None,
            reset: false,
            identifying: false,
            ..self
        }
    }

    // As every write, these two end the walk.
    #[tactic(auto, unfolding(crate::specs::Marks::identified))]
    pub fn identified(self) -> Marks
        ensures { result ≡ identified self }
    {
        Marks {
            walk: None,
            identifying: true,
            ..self
        }
    }

    #[tactic(auto, unfolding(crate::specs::Marks::enabled))]
    pub fn enabled(self) -> Marks
        ensures { result ≡ enabled self }
    {
        Marks {
            walk: None,
            identifying: false,
            writable: true,
            ..self
        }
    }

    pub fn with_walk(self, walk: Option<u8>) -> Marks
        ensures { result ≡ with_walk self walk }
    {
        Marks { walk, ..self }
    }

    pub fn with_pair(self, pair: Option<u16>) -> Marks
        ensures { result ≡ with_pair self pair }
    {
        Marks { pair, ..self }
    }

    // After power-up: as fresh, but the walk and the reset state stay.
    pub fn power_up(self) -> Marks
        ensures { result ≡ power_up_marks self }
    {
        Marks {
            walk: self.walk,
            reset: self.reset,
            ..Marks::fresh()
        }
    }

    // A walk is off, or at most at the end of the longest list.
    #[tactic(auto, unfolding(crate::specs::Marks::walk_fit))]
    pub(crate) fn fit(self) -> bool
        ensures { result ≡ walk_fit self.walk }
    {
        self.walk.is_none_or(|next| next <= 16)
    }
}
