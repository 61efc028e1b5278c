// Queries on a slot: what is answered, the walk through the type list that follows, and the colour that is reported.
ghost use Rattle.std.specs.Prelude.{◌≡◌, true};
ghost use Rattle.engine.specs.Served.{Served};
ghost use Rattle.engine.specs.Works.{Works};
ghost use Rattle.gear.specs.Marks.{walk_fit, with_walk};
ghost use Rattle.gear.specs.Parts.{with_marks};
ghost use Rattle.query.specs.Reply.{gear_query_reply, query, seen};
ghost use Rattle.slot.specs.Held.{Does};
ghost use Rattle.slot.specs.Record.{gear_of};

use crate::report::report;
use crate::serve::{Slot, serve};
use gear::answer::Answer;
use query::heard::walked;
use query::told::{Seen, query_answer};
use slot::parts::{
    WALK_OFF, condition_of, fades_of, groups_of, levels_of, marks_of, scene_place, tint_at, unit_of,
};
use slot::places::{ACTIVE, FAILURE, ON, SETTING_LEVEL, WALK};

// The parts that queries tell of: query's `Seen::of`, from bytes. A trait of readers over record and slot would say each of the ten parts
// twice, and be used here alone; reading the whole record first would read sixteen scenes for the level of one.
fn seen(slot: &Slot, byte: u8) -> Seen
    ensures { result ≡ seen (gear_of slot.now) byte }
{
    Seen {
        unit: unit_of(slot),
        levels: levels_of(slot),
        marks: marks_of(slot),
        on: slot[ON + SETTING_LEVEL],
        failure: slot[FAILURE + SETTING_LEVEL],
        fades: fades_of(slot),
        groups: groups_of(slot),
        scene: slot[scene_place(byte % 16) + SETTING_LEVEL],
        condition: condition_of(slot),
        active: tint_at(slot, ACTIVE),
    }
}

fn put_walk(slot: &mut Slot, walk: Option<u8>)
    ensures { walk_fit walk ≡ true → Does (λ g. with_marks g (with_walk g.marks walk)) slot.old slot.new }
{
    slot[WALK] = walk.unwrap_or(WALK_OFF);
}

pub(crate) fn answer(slot: &mut Slot, byte: u8) -> Answer
    ensures { Works (λ g. query g byte) slot.old slot.new result }
{
    let told = seen(slot, byte);
    let marks = walked(told.unit, told.marks, byte);
    put_walk(slot, marks.walk);
    report(slot, told.unit, byte);
    query_answer(told, byte)
}

pub fn gear_query_reply(slot: &mut [u8], byte: u8) -> Answer
    ensures { Served (λ g. gear_query_reply g byte) slot.old slot.new result }
{
    serve(slot, |slot| answer(slot, byte))
}
