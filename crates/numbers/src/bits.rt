// The bits of a byte, as an array of marks.
ghost use Rattle.std.specs.Prelude.{◌≡◌, ◌<◌};
ghost use Rattle.numbers.specs.Bits.{bit_at, bits};

use std::array;

fn bit_at(byte: u8, place: usize) -> bool
    requires { place < 8 }
    ensures { result ≡ bit_at byte place }
{
    byte >> place & 1 == 1
}

// The lowest first.
pub fn bits(byte: u8) -> [bool; 8]
    ensures { result ≡ bits 8 byte }
{
    array::from_fn(|place| bit_at(byte, place))
}
