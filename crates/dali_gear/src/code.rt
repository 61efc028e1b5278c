// Answers as two numbers, a code and its detail. The codes 1 to 5 are document 01's refusals.
ghost use Rattle.std.specs.Prelude.{◌≡◌};
ghost use Rattle.dali_gear.specs.Code.{answer_code, answer_detail, asked_code, asked_detail};
ghost use Rattle.dali_gear.specs.Code.{ran_code, ran_detail, verdict_code, verdict_detail};

use file::Malformed;
use gear::answer::{Answer, Reply};
use runner::run::RunError;

// The numbers are the C header's, host/include/dali_gear.h: C has no enum with a value.
const DONE: u32 = 0;

const MALFORMED: u32 = 5;

const VALUE: u32 = 16;

const NOTHING: u32 = 17;

const SHORT: u32 = 18;

const INCAPABLE: u32 = 19;

// What a host is told.
#[derive(Clone, Copy)]
pub struct Told {
    code: u32,
    detail: usize,
}

impl Told {
    // The code is what a call returns, and the detail goes where the host wants it.
    pub fn tell(self, detail: &mut usize) -> u32
        ensures code { result ≡ self.code }
        ensures detail { detail.new ≡ self.detail }
    {
        *detail = self.detail;
        self.code
    }
}

impl From<Malformed> for Told {
    ghost from_gives = { λ malformed told. (told.code ≡ 5) × (told.detail ≡ malformed.offset) };

    fn from(malformed: Malformed) -> Told {
        Told {
            code: MALFORMED,
            detail: malformed.offset,
        }
    }
}

#[tactic(auto, unfolding(crate::specs::Code::verdict_code, crate::specs::Code::verdict_detail))]
impl From<Result<(), Malformed>> for Told {
    ghost from_gives = { λ verdict told. (told.code ≡ verdict_code verdict) × (told.detail ≡ verdict_detail verdict) };

    fn from(verdict: Result<(), Malformed>) -> Told {
        match verdict {
            Ok(()) => Told {
                code: DONE,
                detail: 0,
            },
            Err(malformed) => Told::from(malformed),
        }
    }
}

#[tactic(auto, unfolding(crate::specs::Code::ran_code, crate::specs::Code::ran_detail))]
impl From<Result<usize, RunError>> for Told {
    ghost from_gives = { λ ran told. (told.code ≡ ran_code ran) × (told.detail ≡ ran_detail ran) };

    fn from(ran: Result<usize, RunError>) -> Told {
        match ran {
            Ok(count) => Told {
                code: DONE,
                detail: count,
            },
            Err(RunError::Malformed(malformed)) => Told::from(malformed),
            Err(RunError::Short(wanted)) => Told {
                code: SHORT,
                detail: wanted,
            },
        }
    }
}

#[tactic(auto, unfolding(crate::specs::Code::answer_code, crate::specs::Code::answer_detail))]
impl From<Answer> for Told {
    ghost from_gives = { λ answer told. (told.code ≡ answer_code answer) × (told.detail ≡ answer_detail answer) };

    fn from(answer: Answer) -> Told {
        let (code, detail) = match answer {
            Ok(Reply::Done) => (DONE, 0),
            Ok(Reply::Value(value)) => (VALUE, usize::from(value)),
            Ok(Reply::Nothing) => (NOTHING, 0),
            Ok(Reply::Incapable(need)) => (INCAPABLE, usize::from(u8::from(need))),
            Err(refusal) => (u32::from(u8::from(refusal)), 0),
        };
        Told { code, detail }
    }
}

#[tactic(auto, unfolding(crate::specs::Code::asked_code, crate::specs::Code::asked_detail))]
impl From<Result<Answer, Malformed>> for Told {
    ghost from_gives = { λ asked told. (told.code ≡ asked_code asked) × (told.detail ≡ asked_detail asked) };

    fn from(asked: Result<Answer, Malformed>) -> Told {
        match asked {
            Ok(answer) => Told::from(answer),
            Err(malformed) => Told::from(malformed),
        }
    }
}
