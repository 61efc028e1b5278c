// The digest (oracle/FORMAT.md): it starts at 0, and each byte of the image is folded into it.
use colour::setting::ColourSetting;

#[derive(Clone, Copy)]
pub struct Digest(u32);

impl Digest {
    pub const START: Digest = Digest(0);

    pub fn number(self) -> u32 {
        self.0
    }

    pub fn byte(self, b: u8) -> Digest {
        Digest(((u64::from(self.0) * 1000003 + u64::from(b) + 1) % 4294967291) as u32)
    }

    pub fn flag(self, yes: bool) -> Digest {
        self.byte(u8::from(yes))
    }

    // High byte first.
    pub fn word(self, number: u16) -> Digest {
        self.bytes(&number.to_be_bytes())
    }

    pub fn bytes(self, list: &[u8]) -> Digest {
        list.iter().fold(self, |sum, b| sum.byte(*b))
    }

    // A stored colour: type, x, y, Tc, six levels, control.
    pub fn setting(self, colour: ColourSetting) -> Digest {
        self.byte(colour.kind)
            .word(colour.x)
            .word(colour.y)
            .word(colour.tc)
            .bytes(&colour.levels)
            .byte(colour.control)
    }
}
