// The steps of a session, one after the other on one record.
ghost use Rattle.std.specs.Prelude.{true, Ok, ◌≡◌, ◌+◌, ◌*◌, ◌/◌, ◌≤◌, ◌<◌, length};
ghost use Rattle.file.specs.File.{checked};
ghost use Rattle.gear.specs.Record.{fitb};
ghost use Rattle.runner.specs.Line.{Wrote};
ghost use Rattle.runner.specs.Run.{answer_after, first_of, state_after, text_after};

use crate::line::Lines;
use crate::perform::perform;
use file::profile_of;
use gear::answer::{Answer, Reply};
use gear::record::Gear;
use step::kind::step_of;

// The record that the steps of a well-formed file begin with. That the file is well-formed is a clause, here and of `put_lines`, and no
// type: for these two a public type of judged files would stand beside `check`, `steps` and `profile_of`, which callers and theorems name. That
// the record is fit is one too, here, of `follow` and of `perform`: a type of fit records would have to hold after each field that an arm stores.
#[tactic(auto, using(crate::proofs::First::good_fit))]
pub(crate) fn first(file: &[u8]) -> Gear
    requires { checked file.now ≡ Ok tt }
    ensures first { result ≡ first_of file.now }
    ensures fit { fitb result ≡ true }
{
    Gear::new(profile_of(file)).gear
}

// Every step in turn on the record, each with its line, and none where `out` is empty, where no answer is worked out either; what the last of
// them answered, and where the lines end, as a number, which stays in a register. A step's number is written before the step is performed:
// 799,000 instructions for 4,096 steps of arc power (tried: 852,000 with the whole line written behind the step). One loop, with a buffer that
// may be empty: with a loop for steps alone and one with lines (tried), a step of the mix 'power' (bench/run) takes 211 instructions with its
// line and 164 without where `perform` is put into both, 213 and 161 where it is called, and not 180 and 130. A `Lines` by value, taken and
// handed back (tried), proves here, but in `put_lines` no proof was found that the lent buffer ends as it says; an Option of a buffer was not
// tried: it says by None what an empty one says. The figures here and in the other files of this crate are of when the other form was tried,
// most of them before the colour was changed where it lies; a step takes less now (docs/PERFORMANCE.md).
pub(crate) fn follow(gear: &mut Gear, steps: &[u8], out: &mut [u8]) -> (Answer, usize)
    requires fit { fitb gear.old ≡ true }
    requires few { length steps.now / 4 ≤ 4096 }
    requires room { 0 < length out.old → length steps.now / 4 * 11 ≤ length out.old }
    ensures gear { gear.new ≡ state_after steps.now gear.old (length steps.now / 4) }
    ensures answer { 0 < length out.old → result.0 ≡ answer_after steps.now gear.old (length steps.now / 4) }
    ensures fit { fitb gear.new ≡ true }
    ensures lines { 0 < length out.old → Wrote out.old 0 (text_after steps.now gear.old (length steps.now / 4)) out.new result.1 }
{
    let mut lines = Lines { out, at: 0 };
    let mut answer = Ok(Reply::Done);
    for (k, &[kind, a, b, c]) in steps.as_chunks::<4>().0.iter().enumerate() {
        lines.start_line(k as u16 + 1);
        answer = perform(gear, step_of(kind, a, b, c), lines.wanted());
        lines.end_line(answer);
    }
    (answer, lines.at)
}
