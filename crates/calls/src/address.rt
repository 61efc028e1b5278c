// Whom a frame is for (part 102, 7.2).
ghost use Rattle.std.specs.Prelude.{◌≡◌};
ghost use Rattle.calls.specs.Address.{addressed, matching, beyond, judged, matches_call};

use gear::answer::{Answer, Refusal, flag};
use gear::record::Gear;
use gear::scene::is_member;
use gear::serve::tell;

#[derive(Clone, Copy)]
pub enum Address {
    Short(u8),
    Group(u8),
    Broadcast,
    Unaddressed,
}

// An address above 63 is no gear's.
#[tactic(auto, unfolding(crate::specs::Address::addressed, crate::specs::Address::is_short, query::specs::Status::missing))]
fn addressed(gear: Gear, address: Address) -> bool
    ensures { result ≡ addressed gear address }
{
    match address {
        Address::Short(number) => gear.unit.short == Some(number),
        Address::Group(group) => is_member(gear.settings.groups, group),
        Address::Broadcast => true,
        Address::Unaddressed => gear.unit.short.is_none(),
    }
}

// A gear that is not enabled is addressed by nothing.
#[tactic(auto, unfolding(crate::specs::Address::matching))]
fn matching(gear: Gear, address: Address) -> Answer
    ensures { result ≡ matching gear address }
{
    flag(gear.condition.enabled && addressed(gear, address))
}

// There are sixteen groups.
#[tactic(auto, unfolding(crate::specs::Address::beyond))]
pub fn is_group_beyond(address: Address) -> bool
    ensures { result ≡ beyond address }
{
    matches!(address, Address::Group(16..))
}

#[tactic(auto, unfolding(crate::specs::Address::judged))]
fn judged(gear: Gear, address: Address) -> Answer
    ensures { result ≡ judged gear address }
{
    if is_group_beyond(address) {
        return Err(Refusal::Group);
    }
    matching(gear, address)
}

#[tactic(auto, unfolding(crate::specs::Address::matches_call))]
pub fn matches(gear: Gear, address: Address) -> Answer
    ensures { result ≡ matches_call gear address }
{
    tell(gear, judged(gear, address))
}
