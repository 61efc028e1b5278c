// The kind of each id of a colour value (part 209, table 11).
ghost use Rattle.std.specs.Prelude.{◌≡◌};
ghost use Rattle.colour.specs.Kinds.{kind_numbered, kind_of};

#[derive(Clone, Copy, PartialEq, Eq, Debug)]
pub enum Kind {
    Active,
    // A primary's number, and how many primaries there are.
    Primary,
    Primaries,
    Limit,
    Staged,
    Report,
}

// Part 209, table 11: the number of each id's kind, in the order above from 1; 0 where no gear has the id. Document 01 asks for it: 'one
// constant table from id to kind', 'read by one lookup'. Bytes, since the check computes a table of bytes whole; one of `Option<Kind>` it
// makes in 256 steps, and the proof that it has the rule's kind at every id didn't close (tried).
const KINDS: [u8; 256] = [
    1, 1, 1, 0, 0, 0, 0, 0, 0, 1, 1, 1, 1, 1, 1, 1, 0, 0, 0, 0, 0, 0, 0, 0, 0, 0, 0, 0, 0, 0, 0, 0,
    0, 0, 0, 0, 0, 0, 0, 0, 0, 0, 0, 0, 0, 0, 0, 0, 0, 0, 0, 0, 0, 0, 0, 0, 0, 0, 0, 0, 0, 0, 0, 0,
    2, 2, 2, 2, 2, 2, 2, 2, 2, 2, 2, 2, 2, 2, 2, 2, 2, 2, 3, 0, 0, 0, 0, 0, 0, 0, 0, 0, 0, 0, 0, 0,
    0, 0, 0, 0, 0, 0, 0, 0, 0, 0, 0, 0, 0, 0, 0, 0, 0, 0, 0, 0, 0, 0, 0, 0, 0, 0, 0, 0, 0, 0, 0, 0,
    4, 4, 4, 4, 0, 0, 0, 0, 0, 0, 0, 0, 0, 0, 0, 0, 0, 0, 0, 0, 0, 0, 0, 0, 0, 0, 0, 0, 0, 0, 0, 0,
    0, 0, 0, 0, 0, 0, 0, 0, 0, 0, 0, 0, 0, 0, 0, 0, 0, 0, 0, 0, 0, 0, 0, 0, 0, 0, 0, 0, 0, 0, 0, 0,
    5, 5, 5, 0, 0, 0, 0, 0, 0, 5, 5, 5, 5, 5, 5, 5, 5, 0, 0, 0, 0, 0, 0, 0, 0, 0, 0, 0, 0, 0, 0, 0,
    6, 6, 6, 0, 0, 0, 0, 0, 0, 6, 6, 6, 6, 6, 6, 6, 6, 0, 0, 0, 0, 0, 0, 0, 0, 0, 0, 0, 0, 0, 0, 0,
];

// The kind of a number of the table; none for 0. An error in its place, as TryFrom wants one, would say no more.
#[tactic(auto, unfolding(crate::specs::Kinds::kind_numbered))]
fn kind_numbered(number: u8) -> Option<Kind>
    ensures { result ≡ kind_numbered number }
{
    match number {
        1 => Some(Kind::Active),
        2 => Some(Kind::Primary),
        3 => Some(Kind::Primaries),
        4 => Some(Kind::Limit),
        5 => Some(Kind::Staged),
        6 => Some(Kind::Report),
        _ => None,
    }
}

// None where no gear has the id. A cast, since with `usize::from` the proof from the computed table didn't close (tried).
pub(crate) fn kind_of(id: u8) -> Option<Kind>
    ensures { result ≡ kind_of id }
{
    kind_numbered(KINDS[id as usize])
}
