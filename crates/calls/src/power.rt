// A power cycle (part 102, 9.13; part 209, table 8).
ghost use Rattle.std.specs.Prelude.{◌≡◌};
ghost use Rattle.calls.specs.Power.{power_cycle_call};

use gear::answer::{Outcome, Refusal, done, refused};
use gear::record::Gear;

#[tactic(auto, unfolding(crate::specs::Power::power_cycle_call, crate::specs::Power::power_cycle, gear::specs::Serve::serve))]
pub fn power_cycle(gear: Gear) -> Outcome
    ensures { result ≡ power_cycle_call gear }
{
    if !gear.fit() {
        return refused(gear, Refusal::Unfit);
    }
    let mut next = gear;
    next.levels = next.levels.power_up(next.settings.on.level);
    next.marks = next.marks.power_up();
    next.colour = next.colour.power_up();
    done(next)
}
