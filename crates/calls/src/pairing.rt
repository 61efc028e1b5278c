// Send-twice pairing (part 101, 9.3): a frame waits for its second copy.
ghost use Rattle.std.specs.Prelude.{◌≡◌};
ghost use Rattle.calls.specs.Pairing.{heard_answer, paired, hear, hear_call, holds_call, hear_elsewhere_call};

use gear::answer::{Answer, Outcome, Refusal, Reply, flag, refused};
use gear::record::Gear;
use gear::serve::tell;

// The bits of the answer to a frame: it is carried out; it completed a pair; it split another one.
const CARRIED_OUT: u16 = 1;

const COMPLETED: u16 = 2;

const SPLIT: u16 = 4;

// To a frame that completes none: a first copy is not carried out.
#[tactic(auto, unfolding(crate::specs::Pairing::heard_answer))]
pub fn heard_answer(repeats: bool, split: bool) -> Answer
    ensures { result ≡ heard_answer repeats split }
{
    Ok(Reply::Value(match (repeats, split) {
        (true, true) => SPLIT,
        (true, false) => 0,
        (false, true) => CARRIED_OUT | SPLIT,
        (false, false) => CARRIED_OUT,
    }))
}

fn paired(gear: Gear, answer: Answer, pair: Option<u16>) -> Outcome
    ensures { result ≡ paired gear answer pair }
{
    let mut next = gear;
    next.marks = gear.marks.with_pair(pair);
    Outcome { answer, gear: next }
}

// The frame that waits completes its pair; any other splits it, and waits for its own second copy where it wants one.
#[tactic(auto, unfolding(crate::specs::Pairing::hear, crate::specs::Pairing::is_open, crate::specs::Pairing::waiting, crate::specs::Pairing::waits))]
fn heard(gear: Gear, frame: u16, repeats: bool) -> Outcome
    ensures { result ≡ hear gear frame repeats }
{
    let pair = gear.marks.pair;
    if pair == Some(frame) {
        return paired(gear, Ok(Reply::Value(CARRIED_OUT | COMPLETED)), None);
    }
    paired(
        gear,
        heard_answer(repeats, pair.is_some()),
        repeats.then_some(frame),
    )
}

// A frame for this gear; `repeats` says that it wants a second copy.
#[tactic(auto, unfolding(crate::specs::Pairing::hear_call, gear::specs::Serve::serve))]
pub fn hear(gear: Gear, frame: u16, repeats: bool) -> Outcome
    ensures { result ≡ hear_call gear frame repeats }
{
    if !gear.fit() {
        return refused(gear, Refusal::Unfit);
    }
    heard(gear, frame, repeats)
}

#[tactic(auto, unfolding(crate::specs::Pairing::holds_call, crate::specs::Pairing::waits))]
pub fn holds(gear: Gear, frame: u16) -> Answer
    ensures { result ≡ holds_call gear frame }
{
    tell(gear, flag(gear.marks.pair == Some(frame)))
}

// A frame for another gear ends the walk and an open pair, and says whether there was one.
#[tactic(auto, unfolding(crate::specs::Pairing::hear_elsewhere_call, crate::specs::Pairing::is_open, gear::specs::Serve::serve))]
pub fn hear_elsewhere(gear: Gear) -> Outcome
    ensures { result ≡ hear_elsewhere_call gear }
{
    if !gear.fit() {
        return refused(gear, Refusal::Unfit);
    }
    let mut next = gear;
    next.marks = gear.marks.with_walk(None).with_pair(None);
    Outcome {
        answer: flag(gear.marks.pair.is_some()),
        gear: next,
    }
}
