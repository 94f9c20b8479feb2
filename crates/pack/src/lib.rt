// The public calls on a whole pack: reading it under a budget, the lookup of an artifact, and names that print alike.
// Port the callers' side of Module::deserialize and Module::artifact; the budget and the tape are added.
#![tactic(auto)]

ghost use Rattle.vob24.specs.Settings.{settings, settings_of};
ghost use Rattle.calls.specs.Contract.{Opens, ReadCall};
ghost use Rattle.lookup.specs.Look.{LocateCall, FindCall};
ghost use Rattle.alike_names.specs.Contract.{AlikeCall};
ghost use Rattle.pack.specs.Find.{Whole, Located};

use alike_names::AlikeNames;
use calls::Taken;
use reader::{Cursor, Refusal, Span, Step};
use vob24_data::{Section, Settings};

// The Rust's own, under which the lookup and names alike read.
pub const STARTING_BUDGET: u64 = 536_870_912;

// A pack of at most SMALL bytes is read once, into a local tape of OWN words that is then copied. A pack without entries
// has 37 words; clearing a longer tape would cost each small pack more.
const SMALL: usize = 128;

const OWN: usize = 40;

// A small pack: where its record fits the call's own tape, it is copied from there.
fn read_once(
    pack: &[u8],
    set: &Settings,
    start: Step,
    budget: u64,
    tape: &mut [u32],
) -> Result<Taken, Refusal>
    requires { Opens pack.now 0 budget start }
    ensures { ReadCall (settings_of set.now) pack.now budget tape.old result
        tape.new }
{
    let mut own = [0u32; OWN];
    let first = deserialize::deserialize(pack, set, start, false, &mut own);
    let taken = calls::closed_whole(first, pack.len(), budget, tape.len())?;
    if taken.words <= OWN {
        calls::copy_record(&own, taken.words, tape);
        return Ok(taken);
    }
    let _ = deserialize::deserialize(pack, set, start, true, tape);
    Ok(taken)
}

// A pack under a budget. Taken, the tape's counted words are the record; refused, the tape is as it was.
pub fn read(pack: &[u8], budget: u64, tape: &mut [u32]) -> Result<Taken, Refusal>
    ensures { ReadCall settings pack.now budget tape.old result tape.new }
{
    let set = &vob24_data::MEASURED;
    if pack.len() <= SMALL {
        let start = Ok(Cursor {
            place: 0,
            left: budget,
            at: 0,
        });
        return read_once(pack, set, start, budget, tape);
    }
    let start = calls::opening_whole(pack, budget);
    let first = deserialize::deserialize(pack, set, start, false, &mut tape[..0]);
    let taken = calls::closed_whole(first, pack.len(), budget, tape.len())?;
    let _ = deserialize::deserialize(pack, set, start, true, tape);
    Ok(taken)
}

// The artifact of this name in a pack that was taken from r on, up to `end`.
fn located(s: &[u8], set: &Settings, r: Step, name: &[u8], end: Cursor) -> Result<Span, Refusal>
    requires { Whole (settings_of set.now) s.now r end }
    ensures { Located (settings_of set.now) s.now r name.now end result }
{
    let at = deserialize::to_section(s, set, Section::Artifacts, r, &mut []);
    lookup::look_from(s, set, at?.place, name, end)
}

// Start and length of the payload of the first artifact with exactly these name bytes, or the refusal.
pub fn locate_artifact(pack: &[u8], name: &[u8]) -> Result<Span, Refusal>
    ensures { LocateCall settings pack.now name.now result }
{
    let set = &vob24_data::MEASURED;
    let start = calls::opening_whole(pack, STARTING_BUDGET);
    let first = deserialize::deserialize(pack, set, start, false, &mut []);
    let end = calls::ended(first, pack.len())?;
    located(pack, set, start, name, end)
}

// That payload as a part of the pack; refused, an empty part.
pub fn find_artifact<'a>(pack: &'a [u8], name: &[u8]) -> &'a [u8]
    ensures { FindCall settings pack.now name.now result.now }
{
    let found = locate_artifact(pack, name);
    match found {
        Ok(payload) => {
            let end = payload.start + payload.length;
            &pack[payload.start..end]
        }
        Err(_) => &pack[..0],
    }
}

// Start and length of two names of one table that are the same letters, composed in one and decomposed in the other: the
// pair whose later name ends earliest in the file, with the earlier name nearest to it; none; or the refusal.
pub fn alike_names(pack: &[u8]) -> Result<Option<AlikeNames>, Refusal>
    ensures { AlikeCall settings pack.now result }
{
    let set = &vob24_data::MEASURED;
    let start = calls::opening_whole(pack, STARTING_BUDGET);
    let first = deserialize::deserialize(pack, set, start, false, &mut []);
    calls::ended(first, pack.len())?;
    Ok(alike_names::find_alike(pack, set))
}
