// What the two queries of the walk through the type list answer (part 102, 11.5.12 and 11.5.13).
ghost use Rattle.std.specs.Prelude.{◌≡◌};
ghost use Rattle.query.specs.Walk.{type_answer, answer_at, next_type_answer};

use gear::answer::{Answer, Reply};
use gear::profile::Unit;

// No (further) type; and more than one type.
const LIST_END: u16 = 254;

const MULTIPLE: u16 = 255;

// The type at a place of the list, or that it ends before.
#[tactic(auto, unfolding(crate::specs::Walk::answer_at, crate::specs::Walk::type_at))]
fn answer_at(unit: Unit, at: u8) -> Answer
    ensures { result ≡ answer_at unit at }
{
    let code = unit
        .types
        .iter()
        .take(usize::from(unit.count))
        .nth(usize::from(at));
    Ok(Reply::Value(code.map_or(LIST_END, |code| u16::from(*code))))
}

// Query 153: the only type, or that there are several.
#[tactic(auto, unfolding(crate::specs::Walk::type_answer, crate::specs::Walk::answer_at))]
pub(crate) fn type_answer(unit: Unit) -> Answer
    ensures { result ≡ type_answer unit }
{
    if 1 < unit.count {
        return Ok(Reply::Value(MULTIPLE));
    }
    answer_at(unit, 0)
}

// Query 167: the next type of a walk, then that there is none; nothing where no walk is on.
#[tactic(auto, unfolding(crate::specs::Walk::next_type_answer))]
pub(crate) fn next_type_answer(unit: Unit, walk: Option<u8>) -> Answer
    ensures { result ≡ next_type_answer unit walk }
{
    match walk {
        None => Ok(Reply::Nothing),
        Some(at) => answer_at(unit, at),
    }
}
