// The two calls of a host that has one gear (document 02, item 10): each borrows its record and updates it there. A function for the two
// lines that both end with would have a contract of its own, and be longer than what it saves.
#![tactic(auto)]

ghost use Rattle.std.specs.Prelude.{◌≡◌};
ghost use Rattle.calls.specs.Power.{power_cycle_call};
ghost use Rattle.gear.specs.Write.{apply_standard_write};

use calls::power::power_cycle as cycled;
use gear::answer::Answer;
use gear::record::Gear;
use gear::write::apply_standard_write;

// A write by its byte, with DTR0.
pub fn write(gear: &mut Gear, byte: u8, dtr0: u8) -> Answer
    ensures { (result ≡ (apply_standard_write gear.old byte dtr0).answer)
        × (gear.new ≡ (apply_standard_write gear.old byte dtr0).gear) }
{
    let outcome = apply_standard_write(*gear, byte, dtr0);
    *gear = outcome.gear;
    outcome.answer
}

pub fn power_cycle(gear: &mut Gear) -> Answer
    ensures { (result ≡ (power_cycle_call gear.old).answer)
        × (gear.new ≡ (power_cycle_call gear.old).gear) }
{
    let outcome = cycled(*gear);
    *gear = outcome.gear;
    outcome.answer
}
