// The answers of the public calls as six numbers, for the calls over the C ABI.
// The Rust has none of these.
// `as` stands between usize and u64, where Rust has no `From`.
#![tactic(auto)]

ghost use Rattle.std.specs.Prelude.{◌≡◌};
ghost use Rattle.calls.specs.Contract.{answer_of};
ghost use Rattle.lookup.specs.Look.{found_of};
ghost use Rattle.alike_names.specs.Contract as alike;
ghost use Rattle.c_answers.specs.Numbers.{numbers_of, found_numbers, alike_numbers};

use alike_names::AlikeNames;
use calls::Taken;
use reader::{Refusal, Span};

// Taken: number 0, then words, bytes taken, charged, left, 0; found: 0, start, length, and zeros; a pair of names alike:
// 0, 1, start and length of the earlier, of the later; none: zeros. Refused: the number, then c, d1, d2, place, left.
#[repr(C)]
#[derive(Clone, Copy)]
pub struct VobAnswer {
    pub number: u64,
    pub value1: u64,
    pub value2: u64,
    pub value3: u64,
    pub value4: u64,
    pub value5: u64,
}

const ZEROS: VobAnswer = VobAnswer {
    number: 0,
    value1: 0,
    value2: 0,
    value3: 0,
    value4: 0,
    value5: 0,
};

fn refused(x: Refusal) -> VobAnswer
    ensures { result ≡ numbers_of (answer_of (Err x)) }
{
    VobAnswer {
        number: u64::from(x.kind),
        value1: x.context,
        value2: x.detail1,
        value3: x.detail2,
        value4: x.place as u64,
        value5: x.left,
    }
}

impl From<Result<Taken, Refusal>> for VobAnswer {
    ghost from_gives = { λ answer r. r ≡ numbers_of (answer_of answer) };

    fn from(answer: Result<Taken, Refusal>) -> VobAnswer {
        match answer {
            Err(x) => refused(x),
            Ok(taken) => VobAnswer {
                value1: taken.words as u64,
                value2: taken.bytes as u64,
                value3: taken.charged,
                value4: taken.left,
                ..ZEROS
            },
        }
    }
}

impl From<Result<Span, Refusal>> for VobAnswer {
    ghost from_gives = { λ found r. r ≡ found_numbers (found_of found) };

    fn from(found: Result<Span, Refusal>) -> VobAnswer {
        match found {
            Err(x) => refused(x),
            Ok(payload) => VobAnswer {
                value1: payload.start as u64,
                value2: payload.length as u64,
                ..ZEROS
            },
        }
    }
}

impl From<Result<Option<AlikeNames>, Refusal>> for VobAnswer {
    ghost from_gives = { λ answer r. r ≡ alike_numbers (alike.answer_of answer) };

    fn from(answer: Result<Option<AlikeNames>, Refusal>) -> VobAnswer {
        match answer {
            Err(x) => refused(x),
            Ok(None) => ZEROS,
            Ok(Some(names)) => VobAnswer {
                number: 0,
                value1: 1,
                value2: names.earlier.start as u64,
                value3: names.earlier.length as u64,
                value4: names.later.start as u64,
                value5: names.later.length as u64,
            },
        }
    }
}
