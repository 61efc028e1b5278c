// Setters of what no bus command sets.
ghost use Rattle.std.specs.Prelude.{◌≡◌};
ghost use Rattle.calls.specs.Setters.{set_enabled_call, set_lamp_failure_call, set_lamp_starting_call, set_faults_call};

use gear::answer::{Outcome, Refusal, done, refused};
use gear::condition::Faults;
use gear::record::Gear;

#[tactic(auto, unfolding(crate::specs::Setters::set_enabled_call, gear::specs::Serve::serve))]
pub fn set_enabled(gear: Gear, enabled: bool) -> Outcome
    ensures { result ≡ set_enabled_call gear enabled }
{
    if !gear.fit() {
        return refused(gear, Refusal::Unfit);
    }
    let mut next = gear;
    next.condition.enabled = enabled;
    done(next)
}

#[tactic(auto, unfolding(crate::specs::Setters::set_lamp_failure_call, gear::specs::Serve::serve))]
pub fn set_lamp_failure(gear: Gear, failure: bool) -> Outcome
    ensures { result ≡ set_lamp_failure_call gear failure }
{
    if !gear.fit() {
        return refused(gear, Refusal::Unfit);
    }
    let mut next = gear;
    next.condition.lamp.failure = failure;
    done(next)
}

#[tactic(auto, unfolding(crate::specs::Setters::set_lamp_starting_call, gear::specs::Serve::serve))]
pub fn set_lamp_starting(gear: Gear, starting: bool) -> Outcome
    ensures { result ≡ set_lamp_starting_call gear starting }
{
    if !gear.fit() {
        return refused(gear, Refusal::Unfit);
    }
    let mut next = gear;
    next.condition.lamp.starting = starting;
    done(next)
}

#[tactic(auto, unfolding(crate::specs::Setters::set_faults_call, gear::specs::Serve::serve))]
pub fn set_faults(gear: Gear, faults: Faults) -> Outcome
    ensures { result ≡ set_faults_call gear faults }
{
    if !gear.fit() {
        return refused(gear, Refusal::Unfit);
    }
    let mut next = gear;
    next.condition.faults = faults;
    done(next)
}
