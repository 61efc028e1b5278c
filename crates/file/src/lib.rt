// The session file: counted sections of types, profile and steps. It is judged whole, before anything of it is used.
#![tactic(auto)]

ghost use Rattle.std.specs.Prelude.{◌≡◌, ◌+◌, ◌≤◌, [], ◌∷◌, Ok, Err, IfOk, is_ok, length};
ghost use Rattle.numbers.specs.Numbers.{pick};
ghost use Rattle.file.specs.File.{fault, missing, word, checked, well_formed, short_good, warmest_good, minimum_good, types_of, profile_of, steps_of};
ghost use Rattle.file.specs.Profile.{bit, padded, short_of, random_of, profile_from, profile_in};
ghost use Rattle.file.specs.Front.{file_front, unit_front, colour_front, steps_front};

use colour::limits::Range;
use colour::record::Capabilities;
use gear::profile::{Profile, Unit};
use numbers::bits::bits;

// A malformed file: the offset of its lowest fault.
#[derive(Clone, Copy, PartialEq, Eq, Debug)]
pub struct Malformed {
    pub offset: usize,
}

// Two bytes, high byte first.
fn word(bytes: &[u8], at: usize) -> u16
    requires { at + 2 ≤ length bytes.now }
    ensures { result ≡ word bytes.now at }
{
    u16::from_be_bytes([bytes[at], bytes[at + 1]])
}

// The ranges of this one and the next two are a profile's too (gear::profile). A file is judged byte by byte, before there is a profile to ask.
// 255 is none.
fn short_good(short: u8) -> bool
    ensures { result ≡ short_good short }
{
    short <= 63 || short == 255
}

fn warmest_good(coolest: u16, warmest: u16) -> bool
    ensures { result ≡ warmest_good coolest warmest }
{
    (coolest..65535).contains(&warmest)
}

fn minimum_good(minimum: u8) -> bool
    ensures { result ≡ minimum_good minimum }
{
    (1..=254).contains(&minimum)
}

// The file goes on to `past`; else the byte at its end is missing.
fn reach(file: &[u8], past: usize) -> Result<(), Malformed>
    ensures { result ≡ missing past (length file.now) }
{
    if file.len() < past {
        return Err(Malformed { offset: file.len() });
    }
    Ok(())
}

// A field is in range; else its first byte is the fault.
fn in_range(good: bool, first: usize) -> Result<(), Malformed>
    ensures { result ≡ pick good (Ok tt) (Err (fault first)) }
{
    if good {
        Ok(())
    } else {
        Err(Malformed { offset: first })
    }
}

// Section (c), behind so many types: the steps, and nothing after them. Each of these three finds its place b from the count of types, a
// byte: b itself as the parameter would need a bound in each contract, and a struct of the two would be made once and handed on three times.
#[tactic(auto, unfolding(crate::specs::Front::steps_front))]
fn steps_front(file: &[u8], types: u8) -> Result<(), Malformed>
    ensures { result ≡ steps_front file.now (types + 1) }
{
    let b = usize::from(types) + 1;
    reach(file, b + 14)?;
    let count = usize::from(word(file, b + 12));
    in_range(count <= 4096, b + 12)?;
    let end = b + 14 + count * 4;
    reach(file, end)?;
    if end < file.len() {
        return Err(Malformed { offset: end });
    }
    Ok(())
}

// Section (b) from the channels on.
#[tactic(auto, unfolding(crate::specs::Front::colour_front))]
fn colour_front(file: &[u8], types: u8) -> Result<(), Malformed>
    ensures { result ≡ colour_front file.now (types + 1) }
{
    let b = usize::from(types) + 1;
    reach(file, b + 7)?;
    in_range(file[b + 6] <= 6, b + 6)?;
    reach(file, b + 9)?;
    reach(file, b + 11)?;
    let coolest = word(file, b + 7);
    let warmest = word(file, b + 9);
    in_range(warmest_good(coolest, warmest), b + 9)?;
    reach(file, b + 12)?;
    in_range(minimum_good(file[b + 11]), b + 11)?;
    steps_front(file, types)
}

// Section (b), behind so many types; its own count is first.
#[tactic(auto, unfolding(crate::specs::Front::unit_front))]
fn unit_front(file: &[u8], types: u8) -> Result<(), Malformed>
    ensures { result ≡ unit_front file.now (types + 1) }
{
    let b = usize::from(types) + 1;
    reach(file, b + 1)?;
    in_range(file[b] == 11, b)?;
    reach(file, b + 2)?;
    in_range(short_good(file[b + 1]), b + 1)?;
    reach(file, b + 5)?;
    reach(file, b + 6)?;
    in_range(file[b + 5] <= 31, b + 5)?;
    colour_front(file, types)
}

// The first fault from the front.
#[tactic(auto, unfolding(crate::specs::Front::file_front))]
fn file_front(file: &[u8]) -> Result<(), Malformed>
    ensures { result ≡ file_front file.now }
{
    reach(file, 1)?;
    let types = file[0];
    in_range(types <= 13, 0)?;
    reach(file, usize::from(types) + 1)?;
    unit_front(file, types)
}

// A file is judged whole: it is well formed, or this is the lowest of its faults.
#[tactic(auto, using(crate::proofs::Lowest::lowest))]
pub fn check(file: &[u8]) -> Result<(), Malformed>
    ensures { result ≡ checked file.now }
{
    file_front(file)
}

// The sections of a well-formed file, as parts of it: the type codes, which are few, the profile and the steps.
#[derive(Clone, Copy)]
struct Sections<'a> {
    types: &'a [u8],
    profile: &'a [u8; 11],
    steps: &'a [u8],
    ghost few: { length types.now ≤ 13 },
}

// Judges a file, and shows its sections. The profile's count is at b, and the steps go to the end.
#[tactic(auto, using(crate::proofs::Shape::accepted, crate::proofs::Shape::refused, crate::proofs::Shape::shape, crate::proofs::Shape::types_cut, crate::proofs::Shape::profile_cut, crate::proofs::Shape::steps_cut))]
fn cut(file: &[u8]) -> Result<Sections<'_>, Malformed>
    ensures judged { is_ok result ≡ well_formed file.now }
    ensures types { IfOk result (λ sections. sections.types.now ≡ types_of file.now) }
    ensures profile { IfOk result (λ sections. sections.profile.now ≡ profile_of file.now) }
    ensures steps { IfOk result (λ sections. sections.steps.now ≡ steps_of file.now) }
{
    check(file)?;
    let b = usize::from(file[0]) + 1;
    Ok(Sections {
        types: &file[1..b],
        profile: file[b + 1..b + 12].as_array().unwrap(),
        steps: &file[b + 14..],
    })
}

// The type codes: a part of the lent file, as are the other sections. A malformed file has none.
#[tactic(auto, unfolding(crate::specs::File::types_of))]
pub fn types(file: &[u8]) -> &[u8]
    ensures { result.now ≡ types_of file.now }
{
    cut(file).map_or(&[], |Sections { types, .. }| types)
}

// The eleven bytes of the profile.
#[tactic(auto, unfolding(crate::specs::File::profile_of))]
pub fn profile(file: &[u8]) -> &[u8]
    ensures { result.now ≡ profile_of file.now }
{
    cut(file).map_or(&[], |Sections { profile, .. }| profile)
}

// The steps, four bytes each.
#[tactic(auto, unfolding(crate::specs::File::steps_of))]
pub fn steps(file: &[u8]) -> &[u8]
    ensures { result.now ≡ steps_of file.now }
{
    cut(file).map_or(&[], |Sections { steps, .. }| steps)
}

// 255 is no address. One function for this and for the other formats would be `then_some` itself, renamed.
#[tactic(auto, unfolding(crate::specs::Profile::short_of))]
fn short_of(short: u8) -> Option<u8>
    ensures { result ≡ short_of short }
{
    (short != 255).then_some(short)
}

impl Sections<'_> {
    // Sixteen entries, of which the codes are the first.
    #[tactic(auto, unfolding(crate::specs::Profile::padded))]
    fn padded(&self) -> [u8; 16]
        ensures { result ≡ padded self.now.types.now }
    {
        let mut types = [0; 16];
        types[..self.types.len()].copy_from_slice(self.types);
        types
    }

    // Three bytes, high byte first.
    fn random(&self) -> u32
        ensures { result ≡ random_of self.now.profile.now }
    {
        let bytes = self.profile;
        u32::from_be_bytes([0, bytes[1], bytes[2], bytes[3]])
    }

    #[tactic(auto, unfolding(crate::specs::Profile::profile_from, crate::specs::Profile::unit_from))]
    fn to_profile(&self) -> Profile
        ensures { result ≡ profile_from self.now.types.now self.now.profile.now }
    {
        let bytes = self.profile;
        let [tc, xy, adjustable, holds, bare, ..] = bits(bytes[4]);
        Profile {
            unit: Unit {
                short: short_of(bytes[0]),
                random: self.random(),
                types: self.padded(),
                count: self.types.len() as u8,
                adjustable,
                holds,
                bare,
                minimum: bytes[10],
            },
            can: Capabilities {
                tc,
                xy,
                channels: bytes[5],
            },
            physical: Range {
                coolest: word(bytes, 6),
                warmest: word(bytes, 8),
            },
        }
    }
}

// The profile of a well-formed file; of any other one that no call accepts.
#[tactic(auto, unfolding(crate::specs::Profile::profile_in))]
pub fn profile_of(file: &[u8]) -> Profile
    ensures { result ≡ profile_in file.now }
{
    cut(file).map_or_else(|_| Profile::none(), |sections| sections.to_profile())
}
