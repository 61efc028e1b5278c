// Setters of what no bus command sets, on a slot.
ghost use Rattle.calls.specs.Setters.{set_enabled_call, set_faults_call, set_lamp_failure_call, set_lamp_starting_call};
ghost use Rattle.engine.specs.Served.{Served};

use crate::serve::change;
use crate::stores::put_word;
use gear::answer::Answer;
use gear::condition::Faults;
use slot::places::{
    ENABLED, FAULT_DROP, FAULT_FAILURE, FAULT_FORCED, FAULT_HOLDS, FAULT_UNSTORED, LAMP_FAILURE,
    LAMP_STARTING,
};

pub fn set_enabled(slot: &mut [u8], enabled: bool) -> Answer
    ensures { Served (λ g. set_enabled_call g enabled) slot.old slot.new result }
{
    change(slot, |slot| slot[ENABLED] = u8::from(enabled))
}

pub fn set_lamp_failure(slot: &mut [u8], failure: bool) -> Answer
    ensures { Served (λ g. set_lamp_failure_call g failure) slot.old slot.new result }
{
    change(slot, |slot| slot[LAMP_FAILURE] = u8::from(failure))
}

pub fn set_lamp_starting(slot: &mut [u8], starting: bool) -> Answer
    ensures { Served (λ g. set_lamp_starting_call g starting) slot.old slot.new result }
{
    change(slot, |slot| slot[LAMP_STARTING] = u8::from(starting))
}

pub fn set_faults(slot: &mut [u8], faults: Faults) -> Answer
    ensures { Served (λ g. set_faults_call g faults) slot.old slot.new result }
{
    change(slot, |slot| {
        slot[FAULT_UNSTORED] = u8::from(faults.unstored);
        slot[FAULT_HOLDS] = u8::from(faults.holds);
        slot[FAULT_FORCED] = faults.forced;
        slot[FAULT_FAILURE] = faults.failure;
        put_word(slot, FAULT_DROP, faults.drop);
    })
}
