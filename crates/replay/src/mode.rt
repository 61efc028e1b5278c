// The modes of a colour by their numbers in a list (oracle/FORMAT.md).
use colour::tint::ColorMode;

const MODES: [ColorMode; 4] = [
    ColorMode::None,
    ColorMode::Cct,
    ColorMode::Xy,
    ColorMode::Rgb,
];

// None for a number that no mode has. No TryFrom and no From, here and below: neither type is this crate's.
pub fn mode_of(number: u8) -> Option<ColorMode> {
    MODES.get(usize::from(number)).copied()
}

// The enum has them in the same order.
pub fn mode_number(mode: ColorMode) -> u8 {
    mode as u8
}
