// Reads what a program is given into a lent buffer.
#![tactic(auto)]

ghost use Rattle.std.specs.Prelude.{ℕ, ◌≤◌, ◌<◌, length, take, IfOk, OnErr};
ghost use Rattle.std.specs.Io.KnownBytes.{Consumes, IsAtEnd};

use std::io;
use std::io::Read;

// Reads until the buffer is full or the input ends, and answers how many bytes it put at the buffer's start. Where a read fails, those
// that came before it are there.
pub fn read_full<R: Read>(input: &mut R, buffer: &mut [u8]) -> io::Result<usize>
    ensures within { IfOk result (λ count. count ≤ length buffer.new) }
    ensures bytes { IfOk result
        (λ count. Consumes (R.remaining input.old) (R.remaining input.new) (take count buffer.new)) }
    ensures end { IfOk result (λ count. count < length buffer.new → IsAtEnd (R.remaining input.new)) }
    ensures err { OnErr result
        ((count : ℕ) × (count ≤ length buffer.new) × Consumes (R.remaining input.old) (R.remaining input.new) (take count buffer.new)) }
{
    // No index: it counts what the reads gave. Of std, read_exact does not tell how much came; read_to_end wants a Vec (no heap).
    let mut done: usize = 0;
    while done < buffer.len() {
        let more = input.read(&mut buffer[done..])?;
        if more == 0 {
            return Ok(done);
        }
        done += more;
    }
    Ok(done)
}
