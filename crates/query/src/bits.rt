// Bytes of bits.
ghost use Rattle.std.specs.Prelude.{◌≡◌};
ghost use Rattle.numbers.specs.Numbers.{pick};
ghost use Rattle.query.specs.Bits.{weight, eight};

// A bit's weight where it is set.
#[tactic(auto, unfolding(crate::specs::Bits::weight))]
pub(crate) fn weight(set: bool, value: u8) -> u8
    ensures { result ≡ weight set value }
{
    if set { value } else { 0 }
}

// Eight marks as a byte, the first the lowest bit; the other eight where `high`.
pub fn eight(marks: [bool; 16], high: bool) -> u8
    ensures { result ≡ eight marks (pick high 8 0) }
{
    let from = if high { 8 } else { 0 };
    marks[from..from + 8]
        .iter()
        .rev()
        .fold(0, |sum, mark| sum << 1 | u8::from(*mark))
}
