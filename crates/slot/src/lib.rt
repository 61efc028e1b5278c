// One record as 512 bytes (docs/SLOT.md): its image, the record of an image, and what is an image.
// No function asks anything of its arguments: bytes past the end of a part are read as 0.
#![tactic(auto)]

pub mod bytes;
pub mod image;
pub mod parts;
pub mod places;
pub mod test;
