// What a slot remembers of the frames that its gear heard, after each kind of command. The marks are written as bytes where they lie, by
// gear's rules: to call gear's functions, all eight would be read, changed and put back for two or three.
ghost use Rattle.gear.specs.Marks.{asked, configured, identified, enabled};
ghost use Rattle.gear.specs.Parts.{with_marks};
ghost use Rattle.slot.specs.Held.{Does};

use crate::serve::Slot;
use slot::parts::WALK_OFF;
use slot::places::{CYCLED, IDENTIFYING, RESET_STATE, WALK, WRITABLE};

// A command that asks for a level ends the walk and the power-cycle mark, and the identify mark unless it keeps that one.
#[tactic(auto, unfolding(slot::specs::Image::image_of, gear::specs::Marks::asked, gear::specs::Marks::walk_fit))]
pub(crate) fn ask(slot: &mut Slot, keeps: bool)
    ensures { Does (λ g. with_marks g (asked g.marks keeps)) slot.old slot.new }
{
    slot[WALK] = WALK_OFF;
    slot[CYCLED] = 0;
    if !keeps {
        slot[IDENTIFYING] = 0;
    }
}

// A setting ends the walk, the reset state and the identify mark.
#[tactic(auto, unfolding(slot::specs::Image::image_of, gear::specs::Marks::configured, gear::specs::Marks::walk_fit))]
pub(crate) fn configure(slot: &mut Slot)
    ensures { Does (λ g. with_marks g (configured g.marks)) slot.old slot.new }
{
    slot[WALK] = WALK_OFF;
    slot[RESET_STATE] = 0;
    slot[IDENTIFYING] = 0;
}

#[tactic(auto, unfolding(slot::specs::Image::image_of, gear::specs::Marks::identified, gear::specs::Marks::walk_fit))]
pub(crate) fn identify(slot: &mut Slot)
    ensures { Does (λ g. with_marks g (identified g.marks)) slot.old slot.new }
{
    slot[WALK] = WALK_OFF;
    slot[IDENTIFYING] = 1;
}

#[tactic(auto, unfolding(slot::specs::Image::image_of, gear::specs::Marks::enabled, gear::specs::Marks::walk_fit))]
pub(crate) fn enable_write(slot: &mut Slot)
    ensures { Does (λ g. with_marks g (enabled g.marks)) slot.old slot.new }
{
    slot[WALK] = WALK_OFF;
    slot[IDENTIFYING] = 0;
    slot[WRITABLE] = 1;
}
