// Whom a frame is for (part 102, 7.2), on a slot.
ghost use Rattle.std.specs.Prelude.{◌≡◌};
ghost use Rattle.calls.specs.Address.{addressed, judged, matches_call};
ghost use Rattle.engine.specs.Served.{told};
ghost use Rattle.slot.specs.Record.{gear_of};

use crate::serve::{Slot, tell};
use calls::address::{Address, is_group_beyond};
use gear::answer::{Answer, Refusal, flag as flag_answer};
use gear::scene::is_member;
use slot::bytes::{byte, flag};
use slot::parts::{groups_of, short_of};
use slot::places::{ENABLED, SHORT};

#[tactic(auto, unfolding(calls::specs::Address::addressed, calls::specs::Address::is_short, query::specs::Status::missing, slot::specs::Record::gear_of))]
fn is_addressed(slot: &Slot, address: Address) -> bool
    ensures { result ≡ addressed (gear_of slot.now) address }
{
    match address {
        Address::Short(number) => short_of(byte(slot, SHORT)) == Some(number),
        Address::Group(group) => is_member(groups_of(slot), group),
        Address::Broadcast => true,
        Address::Unaddressed => short_of(byte(slot, SHORT)).is_none(),
    }
}

// A gear that is not enabled is addressed by nothing.
#[tactic(auto, unfolding(calls::specs::Address::judged))]
fn judged(slot: &Slot, address: Address) -> Answer
    ensures { result ≡ judged (gear_of slot.now) address }
{
    if is_group_beyond(address) {
        return Err(Refusal::Group);
    }
    flag_answer(flag(slot, ENABLED) && is_addressed(slot, address))
}

pub fn matches(slot: &[u8], address: Address) -> Answer
    ensures { result ≡ told (λ g. matches_call g address) slot.now }
{
    tell(slot, |slot| judged(slot, address))
}
