// A run of a session file: its steps one by one on the record of its profile, and the lines that this writes.
ghost use Rattle.std.specs.Prelude.{◌≡◌, ◌≤◌, Ok, Err, leb, length};
ghost use Rattle.file.specs.File.{checked};
ghost use Rattle.numbers.specs.Numbers.{pick};
ghost use Rattle.runner.specs.Line.{bad_text, Wrote};
ghost use Rattle.runner.specs.Run.{room, lines_of, bytes_of, ran, ran_into, reported, reported_into};
ghost use Rattle.runner.specs.declared.run.RunError.TheVariants.{Malformed, Short};

use crate::follow::{first, follow};
use crate::line::Lines;
use file::{Malformed, check, steps};

// Why nothing was run: the file is malformed, which is refusal 5, or the buffer too short, and wants so many bytes.
#[derive(Clone, Copy, PartialEq, Eq, Debug)]
pub enum RunError {
    Malformed(Malformed),
    Short(usize),
}

impl From<Malformed> for RunError {
    ghost from_gives = { λ malformed error. error ≡ Malformed malformed };

    fn from(malformed: Malformed) -> RunError {
        RunError::Malformed(malformed)
    }
}

// The lines of a well-formed file, into a buffer that has room.
fn put_lines(file: &[u8], out: &mut [u8]) -> usize
    requires { (checked file.now ≡ Ok tt) × (room file.now ≤ length out.old) }
    ensures lines { Wrote out.old 0 (lines_of file.now) out.new result }
    ensures within { result ≤ length out.old }
{
    let mut gear = first(file);
    let (_, at) = follow(&mut gear, steps(file), out);
    let mut lines = Lines { out, at };
    lines.put_end(gear.levels.level, gear.levels.min, gear.levels.max);
    lines.at
}

// The only line for a malformed file.
#[tactic(auto, using(crate::proofs::Lines::bad_length))]
fn put_bad(offset: usize, out: &mut [u8]) -> usize
    requires short { offset ≤ 16412 }
    requires room { 10 ≤ length out.old }
    ensures { Wrote out.old 0 (bad_text offset) out.new result }
{
    let mut lines = Lines { out, at: 0 };
    lines.put_bad(offset as u16);
    lines.at
}

// A buffer of so many bytes holds whatever the file's lines are: `4096 65535` and a line feed for each step, `end 255 255 255` and one
// for the last.
#[tactic(auto, using(crate::proofs::Whole::count_most), unfolding(crate::specs::Run::room))]
pub fn room(file: &[u8]) -> usize
    ensures { result ≡ room file.now }
{
    steps(file).len() / 4 * 11 + 16
}

// Whether a buffer of so many bytes does.
fn has_room(file: &[u8], len: usize) -> Result<(), RunError>
    ensures { result ≡ pick (leb (room file.now) len) (Ok tt) (Err (Short (room file.now))) }
{
    let wanted = room(file);
    if len < wanted {
        return Err(RunError::Short(wanted));
    }
    Ok(())
}

// Runs a file, and tells how many bytes its lines have. Where it is malformed, or the buffer too short, nothing is run and nothing
// written.
#[tactic(auto, unfolding(crate::specs::Run::ran, crate::specs::Run::ran_into, crate::specs::Run::reported, crate::specs::Run::reported_into))]
pub fn run(file: &[u8], out: &mut [u8]) -> Result<usize, RunError>
    ensures answer { result ≡ ran file.now (length out.old) }
    ensures buffer { out.new ≡ ran_into file.now out.old }
    ensures within { bytes_of result ≤ length out.old }
{
    check(file)?;
    has_room(file, out.len())?;
    Ok(put_lines(file, out))
}

// Runs a file as the program `session` does: a malformed one has a line too.
#[tactic(auto, using(crate::proofs::Whole::room_is, crate::proofs::Lines::bad_length, file::proofs::Offset::offset_within), unfolding(crate::specs::Run::reported, crate::specs::Run::reported_into))]
pub fn report(file: &[u8], out: &mut [u8]) -> Result<usize, RunError>
    ensures answer { result ≡ reported file.now (length out.old) }
    ensures buffer { out.new ≡ reported_into file.now out.old }
    ensures within { bytes_of result ≤ length out.old }
{
    has_room(file, out.len())?;
    match check(file) {
        Ok(()) => Ok(put_lines(file, out)),
        Err(malformed) => Ok(put_bad(malformed.offset, out)),
    }
}
