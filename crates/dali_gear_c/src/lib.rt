// The library for hosts in C: the functions of dali_gear under their C names, with the same promises. Each of them stands twice, since a
// crate is a library or a static library, and the theorems stand on dali_gear (docs/DECISIONS.md). host/include/dali_gear.h says it for
// people.
#![tactic(auto)]

ghost use Rattle.std.specs.Prelude.{◌≡◌, length};
ghost use Rattle.dali_gear.specs.Code.{asked_code, asked_detail, ran_code, ran_detail, verdict_code, verdict_detail};
ghost use Rattle.runner.specs.Ask.{asked};
ghost use Rattle.file.specs.File.{checked};
ghost use Rattle.runner.specs.Run.{ran, ran_into, reported, reported_into, room};

// Judges a file. The detail is the offset of its lowest fault, or 0.
#[unsafe(no_mangle)]
pub extern "C" fn dali_gear_check(file: &[u8], detail: &mut usize) -> u32
    ensures code { result ≡ verdict_code (checked file.now) }
    ensures detail { detail.new ≡ verdict_detail (checked file.now) }
{
    dali_gear::dali_gear_check(file, detail)
}

// The bytes that a buffer needs for whatever the file's lines are: 16 for a malformed file.
#[unsafe(no_mangle)]
pub extern "C" fn dali_gear_room(file: &[u8]) -> usize
    ensures { result ≡ room file.now }
{
    dali_gear::dali_gear_room(file)
}

// Runs a file. The detail is the bytes written, the offset of a malformed file's lowest fault, or the bytes that the buffer needs. The
// file is judged before the buffer.
#[unsafe(no_mangle)]
pub extern "C" fn dali_gear_run(file: &[u8], out: &mut [u8], detail: &mut usize) -> u32
    ensures code { result ≡ ran_code (ran file.now (length out.old)) }
    ensures detail { detail.new ≡ ran_detail (ran file.now (length out.old)) }
    ensures buffer { out.new ≡ ran_into file.now out.old }
{
    dali_gear::dali_gear_run(file, out, detail)
}

// Writes what the program `session` prints. Of a malformed file that is the line `bad` with the offset, and the code is 0, never 5.
// The detail is the bytes written, or those that the buffer needs. The buffer is judged before the file.
#[unsafe(no_mangle)]
pub extern "C" fn dali_gear_report(file: &[u8], out: &mut [u8], detail: &mut usize) -> u32
    ensures code { result ≡ ran_code (reported file.now (length out.old)) }
    ensures detail { detail.new ≡ ran_detail (reported file.now (length out.old)) }
    ensures buffer { out.new ≡ reported_into file.now out.old }
{
    dali_gear::dali_gear_report(file, out, detail)
}

// One more step on the record that the file's steps leave. The detail is the value, the number of what the gear lacks for it, or the
// offset of a malformed file's lowest fault.
#[unsafe(no_mangle)]
pub extern "C" fn dali_gear_ask(
    file: &[u8],
    kind: u8,
    a: u8,
    b: u8,
    c: u8,
    detail: &mut usize,
) -> u32
    ensures code { result ≡ asked_code (asked file.now kind a b c) }
    ensures detail { detail.new ≡ asked_detail (asked file.now kind a b c) }
{
    dali_gear::dali_gear_ask(file, kind, a, b, c, detail)
}
