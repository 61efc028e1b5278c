// One more step on the record that a file's steps leave: what a host asks after a pause.
ghost use Rattle.std.specs.Prelude.{◌≡◌};
ghost use Rattle.runner.specs.Ask.{asked};

use crate::follow::{first, follow};
use file::{Malformed, check, steps};
use gear::answer::Answer;

// What the step answers. Where the file is malformed, which is refusal 5, nothing is run. The four bytes are apart, as the C interface has
// them.
#[tactic(auto, unfolding(crate::specs::Ask::asked))]
pub fn ask(file: &[u8], kind: u8, a: u8, b: u8, c: u8) -> Result<Answer, Malformed>
    ensures { result ≡ asked file.now kind a b c }
{
    check(file)?;
    let mut gear = first(file);
    let _ = follow(&mut gear, steps(file), &mut []);
    // A line that nobody reads, as long as the longest: where there is none, answers are not worked out.
    let mut line = [0; 11];
    Ok(follow(&mut gear, &[kind, a, b, c], &mut line).0)
}
