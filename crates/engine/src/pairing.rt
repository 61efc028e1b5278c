// Send-twice pairing on a slot (part 101, 9.3): a frame waits for its second copy.
ghost use Rattle.std.specs.Prelude.{◌≡◌};
ghost use Rattle.calls.specs.Pairing.{hear, hear_call, hear_elsewhere_call, holds_call};
ghost use Rattle.engine.specs.Served.{Served, told};
ghost use Rattle.engine.specs.Works.{Works, hear_elsewhere};
ghost use Rattle.gear.specs.Marks.{with_pair};
ghost use Rattle.gear.specs.Parts.{with_marks};
ghost use Rattle.slot.specs.Held.{Does, Tells};

use crate::serve::{Slot, serve, tell};
use crate::stores::put_word;
use calls::pairing::heard_answer;
use gear::answer::{Answer, Reply};
use slot::parts::{WALK_OFF, marks_of};
use slot::places::{FRAME, PAIR, WALK};

// The frame that waits.
fn pair(slot: &[u8]) -> Option<u16>
    ensures { Tells (λ g. g.marks.pair) slot.now result }
{
    marks_of(slot).pair
}

// The frame that waits from now on, if any; where none does, the slot holds frame 0.
#[tactic(auto, unfolding(slot::specs::Image::image_of))]
fn put_pair(slot: &mut Slot, pair: Option<u16>)
    ensures { Does (λ g. with_marks g (with_pair g.marks pair)) slot.old slot.new }
{
    slot[PAIR] = u8::from(pair.is_some());
    put_word(slot, FRAME, pair.unwrap_or(0));
}

#[tactic(auto, unfolding(calls::specs::Pairing::hear))]
pub(crate) fn heard(slot: &mut Slot, frame: u16, repeats: bool) -> Answer
    ensures { Works (λ g. hear g frame repeats) slot.old slot.new result }
{
    let waiting = pair(slot);
    if waiting == Some(frame) {
        put_pair(slot, None);
        return Ok(Reply::Value(3));
    }
    let answer = heard_answer(repeats, waiting.is_some());
    put_pair(slot, repeats.then_some(frame));
    answer
}

pub(crate) fn heard_elsewhere(slot: &mut Slot) -> Answer
    ensures { Works hear_elsewhere slot.old slot.new result }
{
    let answer = gear::answer::flag(pair(slot).is_some());
    slot[WALK] = WALK_OFF;
    put_pair(slot, None);
    answer
}

// A frame for this gear; `repeats` says that it wants a second copy.
pub fn hear(slot: &mut [u8], frame: u16, repeats: bool) -> Answer
    ensures { Served (λ g. hear_call g frame repeats) slot.old slot.new result }
{
    serve(slot, |slot| heard(slot, frame, repeats))
}

pub fn holds(slot: &[u8], frame: u16) -> Answer
    ensures { result ≡ told (λ g. holds_call g frame) slot.now }
{
    tell(slot, |slot| gear::answer::flag(pair(slot) == Some(frame)))
}

// A frame for another gear ends the walk and an open pair, and says whether there was one.
pub fn hear_elsewhere(slot: &mut [u8]) -> Answer
    ensures { Served hear_elsewhere_call slot.old slot.new result }
{
    serve(slot, heard_elsewhere)
}
