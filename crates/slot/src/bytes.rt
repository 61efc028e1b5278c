// Bytes, words and arrays at the front of a part of a slot.
ghost use Rattle.std.specs.Prelude.{◌≡◌, ◌+◌, ◌^◌, ◌<◌, drop};
ghost use Rattle.slot.specs.Record.{at, flag_at, word_at, bytes_from};

use std::array;

// Past the end stands 0.
pub fn byte(part: &[u8], place: usize) -> u8
    ensures { result ≡ at place part.now }
{
    part.get(place).copied().unwrap_or(0)
}

pub fn flag(part: &[u8], place: usize) -> bool
    ensures { result ≡ flag_at place part.now }
{
    byte(part, place) == 1
}

// Two bytes, low byte first.
pub fn word(part: &[u8], place: usize) -> u16
    ensures { result ≡ word_at place part.now }
{
    let rest = behind(part, place);
    u16::from_le_bytes([byte(rest, 0), byte(rest, 1)])
}

// So many bytes from a place on.
pub(crate) fn bytes_from<const N: usize>(part: &[u8], place: usize) -> [u8; N]
    requires { place + N < 2 ^ 64 }
    ensures { result ≡ bytes_from N place part.now }
{
    array::from_fn(|i| byte(part, place + i))
}

// All bytes from a place on, none where they end before it.
pub(crate) fn behind(part: &[u8], place: usize) -> &[u8]
    ensures { result.now ≡ drop place part.now }
{
    part.get(place..).unwrap_or(&[])
}
