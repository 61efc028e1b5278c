// Lines of text in a lent buffer.
ghost use Rattle.std.specs.Prelude.{◌≡◌, [], ◌∷◌, ◌++◌, ◌+◌, ◌≤◌, ◌<◌, ltb, length};
ghost use Rattle.gear.specs.Answer.{refusal_number};
ghost use Rattle.runner.specs.Line.{digit, digits, number_text, answer_text, end_text, bad_text};
ghost use Rattle.runner.specs.Lines.{HasRoom, Put};

use gear::answer::{Answer, Refusal, Reply};

// A buffer, and where what is written so far ends. Where the buffer is empty, lines of steps are not wanted.
#[derive(Drop)]
pub(crate) struct Lines<'a> {
    pub out: &'a mut [u8],
    pub at: usize,
}

// The byte of a digit.
fn digit(n: u16) -> u8
    requires { n < 10 }
    ensures { result ≡ digit n }
{
    b'0' + n as u8
}

// By hand, since `write!` and Display promise their bytes for a String alone (the kit's LIBRARY.md, 'What a clause knows of printed text'),
// and a String wants a heap, which this project has none of.
impl<'a> Lines<'a> {
    fn put(&mut self, byte: u8)
        requires { HasRoom self.old (byte ∷ []) }
        ensures { Put self.old (byte ∷ []) self.new }
    {
        self.out[self.at] = byte;
        self.at += 1;
    }

    // A number without leading zeros.
    fn put_digits(&mut self, n: u16)
        requires { HasRoom self.old (digits 5 n) }
        ensures { Put self.old (digits 5 n) self.new }
    {
        let mut rest = n;
        for unit in [10_000, 1000, 100, 10] {
            if unit <= n {
                self.put(digit(rest / unit));
                rest %= unit;
            }
        }
        self.put(digit(rest));
    }

    // A number, and the byte behind it.
    #[tactic(auto, using(crate::proofs::Put::puts), unfolding(crate::specs::Line::number_text))]
    fn put_number(&mut self, n: u16, behind: u8)
        requires { HasRoom self.old (number_text n behind) }
        ensures { Put self.old (number_text n behind) self.new }
    {
        self.put_digits(n);
        self.put(behind);
    }

    // `!`, and at once the number.
    #[tactic(auto, using(crate::proofs::Put::puts))]
    fn put_refusal(&mut self, refusal: Refusal)
        requires { HasRoom self.old ((33 ∷ []) ++ digits 5 (refusal_number refusal)) }
        ensures { Put self.old ((33 ∷ []) ++ digits 5 (refusal_number refusal)) self.new }
    {
        self.put(b'!');
        self.put_digits(u16::from(u8::from(refusal)));
    }

    #[tactic(auto, unfolding(crate::specs::Line::answer_text))]
    fn put_answer(&mut self, answer: Answer)
        requires { HasRoom self.old (answer_text answer) }
        ensures { Put self.old (answer_text answer) self.new }
    {
        match answer {
            Ok(Reply::Done) => self.put(b'.'),
            Ok(Reply::Value(value)) => self.put_digits(value),
            Ok(Reply::Nothing) => self.put(b'-'),
            Ok(Reply::Incapable(_)) => self.put(b'~'),
            Err(refusal) => self.put_refusal(refusal),
        }
    }

    pub(crate) fn wanted(&self) -> bool
        ensures { result ≡ ltb 0 (length self.now.out.now) }
    {
        !self.out.is_empty()
    }

    // The front of a step's line, its number.
    pub(crate) fn start_line(&mut self, number: u16)
        requires { 0 < length self.old.out.now → HasRoom self.old (number_text number 32) }
        ensures lines { 0 < length self.old.out.now → Put self.old (number_text number 32) self.new }
        ensures size { length self.new.out.now ≡ length self.old.out.now }
    {
        if self.wanted() {
            self.put_number(number, b' ');
        }
    }

    // The rest of it, what the step answered.
    #[tactic(auto, using(crate::proofs::Put::puts))]
    pub(crate) fn end_line(&mut self, answer: Answer)
        requires { 0 < length self.old.out.now → HasRoom self.old (answer_text answer ++ (10 ∷ [])) }
        ensures lines { 0 < length self.old.out.now → Put self.old (answer_text answer ++ (10 ∷ [])) self.new }
        ensures size { length self.new.out.now ≡ length self.old.out.now }
    {
        if self.wanted() {
            self.put_answer(answer);
            self.put(b'\n');
        }
    }

    fn put_text(&mut self, text: &[u8])
        requires { HasRoom self.old text.now }
        ensures { Put self.old text.now self.new }
    {
        let end = self.at + text.len();
        self.out[self.at..end].copy_from_slice(text);
        self.at = end;
    }

    // The last line: `end`, level, min and max.
    #[tactic(auto, using(crate::proofs::Put::puts, crate::proofs::Lines::byte_length), unfolding(crate::specs::Line::end_text))]
    pub(crate) fn put_end(&mut self, level: u8, min: u8, max: u8)
        requires { self.old.at + 16 ≤ length self.old.out.now }
        ensures { Put self.old (end_text level min max) self.new }
    {
        self.put_text(b"end ");
        self.put_number(u16::from(level), b' ');
        self.put_number(u16::from(min), b' ');
        self.put_number(u16::from(max), b'\n');
    }

    // The only line for a malformed file.
    #[tactic(auto, using(crate::proofs::Put::puts), unfolding(crate::specs::Line::bad_text))]
    pub(crate) fn put_bad(&mut self, offset: u16)
        requires { HasRoom self.old (bad_text offset) }
        ensures { Put self.old (bad_text offset) self.new }
    {
        self.put_text(b"bad ");
        self.put_number(offset, b'\n');
    }
}
