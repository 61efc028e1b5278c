// One step on a fit record, where it lies.
ghost use Rattle.std.specs.Prelude.{true, ◌≡◌};
ghost use Rattle.calls.specs.Power.{power_cycle};
ghost use Rattle.bank.specs.Memory.{write_memory_location};
ghost use Rattle.gear.specs.Answer.{location_answer};
ghost use Rattle.gear.specs.Parts.{with_banks, with_colour};
ghost use Rattle.gear.specs.Record.{fitb};
ghost use Rattle.query.specs.Reply.{query, reported};
ghost use Rattle.step.specs.Kinds.{taken};

use crate::recolour::{activate, copy_report, power_up, stage_tc, step_tc, store_limit};
use crate::write::{arc_write, write};
use bank::memory::{memory_location, write_memory_location};
use colour::value::color_value;
use gear::answer::{Answer, Refusal, Reply, location_answer, value_answer};
use gear::command::command_of;
use gear::record::Gear;
use level::arc::ArcCommand;
use query::heard::{reports, shown, walked};
use query::told::{Seen, query_answer};
use step::kind::Step;

// What a query answers. The scene is read here and in the next function, where the record lies. Tried: gear's `scene_at` and query's
// `reported`, called with a `&Gear`; 4,096 queries with their lines took 1,343,000 instructions and not 902,000, which is 1.5 times the
// Rust's, and not 1.02.
#[tactic(auto, using(query::proofs::Parts::query_tells, step::proofs::Slots::scene_at_lem))]
fn told(gear: &Gear, byte: u8, wanted: bool) -> Answer
    ensures { wanted ≡ true → result ≡ (query gear.now byte).answer }
{
    if !wanted {
        return Ok(Reply::Done);
    }
    let scene = gear.scenes[usize::from(byte % 16)].level;
    query_answer(Seen::of(gear, scene), byte)
}

// The colour of the level that a query tells.
#[tactic(auto, using(query::proofs::Parts::reported_shown, step::proofs::Slots::scene_at_lem), unfolding(colour::specs::Report::report_from))]
fn report(gear: &mut Gear, byte: u8)
    ensures { gear.new ≡ with_colour gear.old (reported gear.old byte) }
{
    if reports(gear.unit, byte) {
        let scene = gear.scenes[usize::from(byte % 16)].colour;
        let told = shown(gear.colour.active, gear.settings, scene, byte);
        gear.colour.report = told;
    }
}

// A query, and what it answers where that is wanted.
#[tactic(auto, using(query::proofs::Parts::query_walks, crate::proofs::Walk::walk_alone))]
fn query(gear: &mut Gear, byte: u8, wanted: bool) -> Answer
    ensures gear { gear.new ≡ (query gear.old byte).gear }
    ensures answer { wanted ≡ true → result ≡ (query gear.old byte).answer }
{
    let answer = told(gear, byte, wanted);
    report(gear, byte);
    gear.marks.walk = walked(gear.unit, gear.marks, byte).walk;
    answer
}

fn write_memory(gear: &mut Gear, bank: u8, offset: u8, value: u8) -> Answer
    ensures gear { gear.new ≡ with_banks gear.old (write_memory_location gear.old.banks gear.old.condition.faults.unstored bank offset value).banks }
    ensures answer { result ≡ location_answer (write_memory_location gear.old.banks gear.old.condition.faults.unstored bank offset value).answer }
{
    let written = write_memory_location(
        gear.banks,
        gear.condition.faults.unstored,
        bank,
        offset,
        value,
    );
    gear.banks = written.banks;
    location_answer(written.answer)
}

#[tactic(auto, unfolding(calls::specs::Power::power_cycle))]
fn power_cycle(gear: &mut Gear)
    ensures { gear.new ≡ power_cycle gear.old }
{
    gear.levels = gear.levels.power_up(gear.settings.on.level);
    gear.marks = gear.marks.power_up();
    power_up(&mut gear.colour);
}

// What the step answers, where that is `wanted`: else a step that only tells is passed over, and of a query only what it leaves is done. This
// is a table, an arm for each kind of step: each stores only the parts that it changes, and none asks whether the record is fit, since a step
// leaves a fit record fit. An arm that works on whole parts is a function of its own: with the body of `write_memory` in its arm (tried), a
// step of the mixes 'power' and 'queries' (bench/run), which don't take it, costs 4 instructions more, 184 and 228 and not 180 and 224.
#[tactic(auto, using(step::proofs::OnFit::on_fit, step::proofs::Slots::slot_low), unfolding(colour::specs::Record::with_features))]
pub(crate) fn perform(gear: &mut Gear, step: Option<Step>, wanted: bool) -> Answer
    requires { fitb gear.old ≡ true }
    ensures gear { gear.new ≡ (taken gear.old step).gear }
    ensures answer { wanted ≡ true → result ≡ (taken gear.old step).answer }
{
    match step.ok_or(Refusal::Byte)? {
        Step::DirectArcPower(level) => arc_write(gear, ArcCommand::DirectArcPower(level)),
        Step::Write { byte, dtr0 } => return write(gear, command_of(byte), dtr0),
        Step::Query(byte) => return query(gear, byte, wanted),
        Step::ReadMemory { bank, offset } => {
            if wanted {
                return location_answer(memory_location(gear.banks, gear.unit.bare, bank, offset));
            }
        }
        Step::WriteMemory {
            bank,
            offset,
            value,
        } => return write_memory(gear, bank, offset, value),
        Step::ColourValue(id) => {
            if wanted {
                return value_answer(color_value(gear.colour, id));
            }
        }
        Step::StoreTcLimit { selector, value } => store_limit(&mut gear.colour, value, selector),
        Step::TcStep { warmer } => step_tc(&mut gear.colour, warmer),
        Step::StageTc(tc) => stage_tc(&mut gear.colour, tc),
        Step::Activate => activate(&mut gear.colour),
        Step::PowerCycle => power_cycle(gear),
        Step::CopyReport => copy_report(&mut gear.colour),
        Step::SetFeatures(features) => gear.colour.features = features,
    }
    Ok(Reply::Done)
}
