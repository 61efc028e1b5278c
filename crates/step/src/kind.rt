// The kinds of steps: what the four bytes of a step ask for, decoded once.
ghost use Rattle.std.specs.Prelude.{◌≡◌};
ghost use Rattle.step.specs.Kinds.{step_of};

// Not in the order of the numbers: where both agree, the compiler tells a step's kind apart twice (tried: 824,000 instructions for 4,096
// steps of arc power, and not 799,000).
#[derive(Clone, Copy)]
pub enum Step {
    DirectArcPower(u8),
    Write { byte: u8, dtr0: u8 },
    PowerCycle,
    Query(u8),
    ReadMemory { bank: u8, offset: u8 },
    WriteMemory { bank: u8, offset: u8, value: u8 },
    ColourValue(u8),
    StoreTcLimit { selector: u8, value: u16 },
    TcStep { warmer: bool },
    StageTc(u16),
    Activate,
    CopyReport,
    SetFeatures(u8),
}

// The four bytes have their names here, as in document 01's table and the rule. A kind above 12 is none: an error in its place, as TryFrom
// wants one, would say no more. Document 01's numbers are decoded here alone.
#[tactic(auto, unfolding(crate::specs::Kinds::step_of))]
pub fn step_of(kind: u8, a: u8, b: u8, c: u8) -> Option<Step>
    ensures { result ≡ step_of kind a b c }
{
    let step = match kind {
        0 => Step::DirectArcPower(a),
        1 => Step::Write { byte: a, dtr0: b },
        2 => Step::Query(a),
        3 => Step::ReadMemory { bank: a, offset: b },
        4 => Step::WriteMemory {
            bank: a,
            offset: b,
            value: c,
        },
        5 => Step::ColourValue(a),
        6 => Step::StoreTcLimit {
            selector: a,
            value: u16::from_be_bytes([b, c]),
        },
        7 => Step::TcStep { warmer: a != 0 },
        8 => Step::StageTc(u16::from_be_bytes([b, c])),
        9 => Step::Activate,
        10 => Step::PowerCycle,
        11 => Step::CopyReport,
        12 => Step::SetFeatures(a),
        _ => return None,
    };
    Some(step)
}
