// An entry of a list, and the numbers in it by their places: high byte first, and 0 past the end.
use calls::address::Address;
use colour::setting::ColourSetting;

pub const ENTRY_LEN: usize = 40;

// No short address, and no walk.
pub const NONE: u8 = 255;

// The bytes of an entry, or those from a place on.
#[derive(Clone, Copy)]
pub struct Entry<'a>(pub &'a [u8]);

impl<'a> Entry<'a> {
    pub fn kind(self) -> u8 {
        self.byte(0)
    }

    pub fn byte(self, at: usize) -> u8 {
        self.0.get(at).copied().unwrap_or(0)
    }

    pub fn flag(self, at: usize) -> bool {
        self.byte(at) != 0
    }

    // A number, or none. One function for this and for the other formats would be `then_some` itself, renamed.
    pub fn number(self, at: usize) -> Option<u8> {
        let number = self.byte(at);
        (number != NONE).then_some(number)
    }

    pub fn from(self, at: usize) -> Entry<'a> {
        Entry(self.0.get(at..).unwrap_or(&[]))
    }

    // So many bytes from a place on.
    pub fn array<const N: usize>(self, at: usize) -> [u8; N] {
        let rest = self.from(at);
        std::array::from_fn(|i| rest.byte(i))
    }

    pub fn word(self, at: usize) -> u16 {
        u16::from_be_bytes(self.array(at))
    }

    pub fn long(self, at: usize) -> u32 {
        u32::from_be_bytes(self.array(at))
    }

    // 14 bytes: type, x, y, Tc, six levels, control.
    pub fn setting(self, at: usize) -> ColourSetting {
        let bytes = self.from(at);
        ColourSetting {
            kind: bytes.byte(0),
            x: bytes.word(1),
            y: bytes.word(3),
            tc: bytes.word(5),
            levels: bytes.array(7),
            control: bytes.byte(13),
        }
    }

    // Two bytes: which kind of address, and its number. There are four kinds: an error in place of None,
    // as TryFrom wants one, would say no more.
    pub fn address(self, at: usize) -> Option<Address> {
        let [kind, number] = self.array::<2>(at);
        match kind {
            0 => Some(Address::Short(number)),
            1 => Some(Address::Group(number)),
            2 => Some(Address::Broadcast),
            3 => Some(Address::Unaddressed),
            _ => None,
        }
    }
}
