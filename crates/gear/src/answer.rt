// What a call answers: nothing to say, a value, no value, no value since the gear lacks what it needs, or a refusal with its number.
ghost use Rattle.std.specs.Prelude.{◌≡◌};
ghost use Rattle.gear.specs.declared.answer.Reply.TheVariants.{Value};
ghost use Rattle.gear.specs.Answer.{refusal_number, flag, refused, done, unchanged, value_answer, unexplained, location_answer};

use crate::record::Gear;
use colour::capability::Capability;
use colour::value::NoValue;

// Why a call was refused.
#[derive(Clone, Copy, PartialEq, Eq, Debug)]
pub enum Refusal {
    Profile,
    Unfit,
    Byte,
    Group,
    File,
    // A part of bytes that is not as long as a record's.
    Length,
}

// Its number (document 01's, and 7).
impl From<Refusal> for u8 {
    ghost from_gives = { λ refusal number. number ≡ refusal_number refusal };

    fn from(refusal: Refusal) -> u8 {
        match refusal {
            Refusal::Profile => 1,
            Refusal::Unfit => 2,
            Refusal::Byte => 3,
            Refusal::Group => 4,
            Refusal::File => 5,
            Refusal::Length => 7,
        }
    }
}

// What a call that is served has to say.
#[derive(Clone, Copy, PartialEq, Eq, Debug)]
pub enum Reply {
    Done,
    Value(u16),
    Nothing,
    Incapable(Capability),
}

impl From<u8> for Reply {
    ghost from_gives = { λ byte reply. reply ≡ Value byte };

    fn from(byte: u8) -> Reply {
        Reply::Value(u16::from(byte))
    }
}

pub type Answer = Result<Reply, Refusal>;

// The answer, and the record that follows.
#[derive(Clone, Copy)]
pub struct Outcome {
    pub answer: Answer,
    pub gear: Gear,
}

// Yes is 1, no is 0.
#[tactic(auto, unfolding(crate::specs::Answer::flag))]
pub fn flag(yes: bool) -> Answer
    ensures { result ≡ flag yes }
{
    Ok(Reply::from(u8::from(yes)))
}

pub fn done(gear: Gear) -> Outcome
    ensures { result ≡ done gear }
{
    Outcome {
        answer: Ok(Reply::Done),
        gear,
    }
}

// What a plain read leaves: the record as it was.
pub fn unchanged(gear: Gear, answer: Answer) -> Outcome
    ensures { result ≡ unchanged gear answer }
{
    Outcome { answer, gear }
}

// A refused call hands the record back as it was.
pub fn refused(gear: Gear, refusal: Refusal) -> Outcome
    ensures { result ≡ refused gear refusal }
{
    Outcome {
        answer: Err(refusal),
        gear,
    }
}

// The answer of a colour value.
#[tactic(auto, unfolding(crate::specs::Answer::value_answer))]
pub fn value_answer(value: Result<u16, NoValue>) -> Answer
    ensures { result ≡ value_answer value }
{
    match value {
        Ok(number) => Ok(Reply::Value(number)),
        Err(NoValue::Unknown) => Ok(Reply::Nothing),
        Err(NoValue::Incapable(need)) => Ok(Reply::Incapable(need)),
    }
}

// The same answer where nobody is told why there is no value.
#[tactic(auto, unfolding(crate::specs::Answer::unexplained))]
pub fn unexplained(answer: Answer) -> Answer
    ensures { result ≡ unexplained answer }
{
    match answer {
        Ok(Reply::Incapable(_)) => Ok(Reply::Nothing),
        _ => answer,
    }
}

// The answer of a memory location.
#[tactic(auto, unfolding(crate::specs::Answer::location_answer))]
pub fn location_answer(found: Option<u8>) -> Answer
    ensures { result ≡ location_answer found }
{
    match found {
        Some(byte) => Ok(Reply::from(byte)),
        None => Ok(Reply::Nothing),
    }
}
