// Reads a session file from standard input and writes the lines of its run. What the lines are is the library's promise.
#![tactic(auto)]

ghost use Rattle.std.specs.Prelude.{OnOk};
ghost use Rattle.std.specs.Io.KnownBytes.{Appends};
ghost use Rattle.runner.specs.Run.{printed};

use input::read_full;
use runner::run::report;
use std::io;
use std::io::Write;
use std::process::ExitCode;

// One byte more than the longest well-formed file: what lies behind it changes no answer.
const FILE_LEN: usize = 16413;

// Room for the lines of 4,096 steps.
const LINES_LEN: usize = 45072;

fn write_lines<W: Write>(output: &mut W, lines: &[u8]) -> io::Result<()>
    ensures { OnOk result (Appends (W.contents output.old) (W.contents output.new) lines.now) }
{
    output.write_all(lines)
}

fn print<W: Write>(output: &mut W, file: &[u8]) -> io::Result<()>
    ensures { OnOk result (Appends (W.contents output.old) (W.contents output.new) (printed file.now)) }
{
    let mut lines = [0u8; LINES_LEN];
    // There is room for the lines of any file, so no error comes.
    let count = report(file, &mut lines).unwrap();
    write_lines(output, &lines[..count])
}

// A line on standard error says what failed, where it can.
fn failed(rt: &impl Eprint, what: &str, error: io::Error) -> ExitCode {
    let _ = eprintln!(rt; "session: {what}: {error}");
    ExitCode::FAILURE
}

fn main(rt: HostRuntime) -> ExitCode {
    // No heap: document 01's array, and how much of it came.
    let mut file = [0u8; FILE_LEN];
    match read_full(&mut rt.stdin(), &mut file) {
        Ok(count) => match print(&mut rt.stdout(), &file[..count]) {
            Ok(()) => ExitCode::SUCCESS,
            Err(error) => failed(&rt, "standard output", error),
        },
        Err(error) => failed(&rt, "standard input", error),
    }
}
