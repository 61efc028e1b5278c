// The tests of a lent slot before a call is made on it: its length, and then whether its bytes are the image of a fit record.
ghost use Rattle.std.specs.Fn.{FnOnceReturnsAt, FnOnceReturnsAtMut};
ghost use Rattle.engine.specs.Works.{ChangedBy, Ran, ServedBy, ToldBy};

use gear::answer::{Answer, Refusal, Reply};
pub(crate) use slot::test::Slot;
use slot::test::{is_held, tested};

// Runs a call on a slot that is the image of a fit record. Tested as `tested` does it, which lends no `&mut`: of a slice the kit has no
// promise for a `&mut` in a Result (LendsIfOk takes none).
fn run<R, F: FnOnce(&mut Slot) -> R>(slot: &mut [u8], call: F) -> Result<R, Refusal>
    requires { F.IsAlwaysCallable call }
    ensures { Ran (FnOnceReturnsAtMut F.FnOnce call) slot.old slot.new result }
{
    let slot = slot.as_mut_array().ok_or(Refusal::Length)?;
    if !is_held(slot) {
        return Err(Refusal::Unfit);
    }
    Ok(call(slot))
}

// A call that may change the record.
pub(crate) fn serve<F: FnOnce(&mut Slot) -> Answer>(slot: &mut [u8], call: F) -> Answer
    requires { F.IsAlwaysCallable call }
    ensures { ServedBy (FnOnceReturnsAtMut F.FnOnce call) slot.old slot.new result }
{
    run(slot, call)?
}

// A call that changes the record and has nothing to say.
pub(crate) fn change<F: FnOnce(&mut Slot)>(slot: &mut [u8], call: F) -> Answer
    requires { F.IsAlwaysCallable call }
    ensures { ChangedBy (λ b. FnOnceReturnsAtMut F.FnOnce call b tt) slot.old slot.new result }
{
    run(slot, call)?;
    Ok(Reply::Done)
}

// A call that only answers.
pub(crate) fn tell<F: FnOnce(&Slot) -> Answer>(slot: &[u8], call: F) -> Answer
    requires { F.IsAlwaysCallable call }
    ensures { ToldBy (FnOnceReturnsAt F.FnOnce call) slot.now result }
{
    call(tested(slot)?)
}
