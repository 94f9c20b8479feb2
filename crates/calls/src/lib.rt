// What the public calls share: the questions before a first pass, the question of room after it, and their contracts.
// A call reads twice by the same code: first with an empty tape, which counts the words, then, where there is room,
// with the tape.
// `as` stands between usize and u64, where Rust has no `From`.
#![tactic(auto)]

ghost use Rattle.std.specs.Prelude.{◌≡◌, ◌≤◌, length};
ghost use Rattle.std.proofs.Math.Seq.{paste};
ghost use Rattle.calls.specs.Contract.{Opens, Since, StaysWithin, Ends, Closes, ended};

use reader::{Cursor, Kind, Refusal, Step};

const MAX_PACK_BYTES: usize = 134_217_728;

// Words on the tape, bytes of the pack, the sum charged, and the budget left.
#[derive(Clone, Copy, PartialEq, Eq, Debug)]
pub struct Taken {
    pub words: usize,
    pub bytes: usize,
    pub charged: u64,
    pub left: u64,
}

// Question 1, then a place past the end; both show place and budget as given.
pub fn opening(pack: &[u8], place: usize, budget: u64) -> Step
    ensures { Opens pack.now place budget result }
{
    let n = pack.len();
    if MAX_PACK_BYTES < n {
        return Err(Refusal {
            kind: Kind::InputTooLarge,
            context: 0,
            detail1: n as u64,
            detail2: MAX_PACK_BYTES as u64,
            place,
            left: budget,
        });
    }
    if n < place {
        return Err(Refusal {
            kind: Kind::UnexpectedEof,
            context: 0,
            detail1: 0,
            detail2: 0,
            place,
            left: budget,
        });
    }
    Ok(Cursor {
        place,
        left: budget,
        at: 0,
    })
}

// Nothing after the end?
pub fn ended(first: Step, length: usize) -> Step
    requires { StaysWithin length first }
    ensures { Ends length first result }
{
    let c = first?;
    let place = c.place;
    if place == length {
        return Ok(c);
    }
    Err(Refusal {
        kind: Kind::TrailingBytes,
        context: 0,
        detail1: (length - place) as u64,
        detail2: 0,
        place,
        left: c.left,
    })
}

// The tape long enough? The answer of a call after its first pass.
pub fn closed(first: Step, place: usize, budget: u64, room: usize) -> Result<Taken, Refusal>
    requires { Since place budget first }
    ensures { Closes place budget room first result }
{
    let c = first?;
    let words = c.at;
    if room < words {
        return Err(Refusal {
            kind: Kind::NoRoom,
            context: 0,
            detail1: words as u64,
            detail2: room as u64,
            place: c.place,
            left: c.left,
        });
    }
    Ok(Taken {
        words,
        bytes: c.place - place,
        charged: budget - c.left,
        left: c.left,
    })
}

// The first n words of a tape, to another. A function of its own, as its contract says by the tape what `copy_from_slice`
// says by parts.
pub fn copy_record(from: &[u32], n: usize, to: &mut [u32])
    requires { (n ≤ length from.now) × (n ≤ length to.old) }
    ensures { to.new ≡ paste to.old 0 from.now n }
{
    to[..n].copy_from_slice(&from[..n]);
}

// ---- the call on a whole pack

// So that the place 0 of a whole pack stands once.
pub fn opening_whole(pack: &[u8], budget: u64) -> Step
    ensures { Opens pack.now 0 budget result }
{
    opening(pack, 0, budget)
}

pub fn closed_whole(first: Step, length: usize, budget: u64, room: usize) -> Result<Taken, Refusal>
    requires stays_within { StaysWithin length first }
    requires since { Since 0 budget (ended length first) }
    ensures { Closes 0 budget room (ended length first) result }
{
    let end = ended(first, length);
    closed(end, 0, budget, room)
}
