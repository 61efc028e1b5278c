// What some colour values need of a gear: it can do xy, it can do Tc, it has a channel at least.
ghost use Rattle.std.specs.Prelude.{◌≡◌};
ghost use Rattle.colour.specs.Capability.{capability_number, has};

use crate::record::Capabilities;

#[derive(Clone, Copy, PartialEq, Eq, Debug)]
pub enum Capability {
    Xy,
    Tc,
    Channels,
}

impl Capability {
    // Whether a gear that can do so much has it.
    pub(crate) fn is_had(self, can: Capabilities) -> bool
        ensures { result ≡ has can self }
    {
        match self {
            Capability::Xy => can.xy,
            Capability::Tc => can.tc,
            Capability::Channels => 0 < can.channels,
        }
    }
}

// The number by which it is told to whoever does not speak Rattle.
impl From<Capability> for u8 {
    ghost from_gives = { λ need number. number ≡ capability_number need };

    fn from(need: Capability) -> u8 {
        match need {
            Capability::Xy => 1,
            Capability::Tc => 2,
            Capability::Channels => 3,
        }
    }
}
