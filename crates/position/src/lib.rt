// A place and a budget that the lent section call advances, and where an answer moves them.
// The Rust's ByteReader does the same with pos and allocation_remaining.
#![tactic(auto)]

ghost use Rattle.position.specs.Moving.{Fits, Moves};

use calls::Taken;
use reader::Refusal;

#[derive(Clone, Copy, PartialEq, Eq, Debug)]
pub struct Position {
    pub place: usize,
    pub budget: u64,
}

impl Position {
    // Past the bytes taken, with what is left; a refusal leaves the position.
    pub fn moved(self, answer: Result<Taken, Refusal>) -> Position
        requires { Fits self answer }
        ensures { Moves self answer result }
    {
        match answer {
            Ok(taken) => Position {
                place: self.place + taken.bytes,
                budget: taken.left,
            },
            Err(_) => self,
        }
    }
}
