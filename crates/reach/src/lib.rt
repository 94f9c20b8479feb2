// The whole pack section by section, and where one of the sections stands: what a later question about a pack starts
// from. The Rust has none of this.
#![tactic(auto)]

ghost use Rattle.std.specs.Prelude.{◌≡◌, ◌+◌, ◌≤◌, ◌<◌};
ghost use Rattle.vob24.specs.Settings.{settings_of};
ghost use Rattle.vob24_data.specs.Sections.{section_of};
ghost use Rattle.reader.specs.Contract.{step_of, Ready};
ghost use Rattle.reach.specs.Reach.{Between, with_number, place_of, Reaches};

use reader::{Read, Step};
use vob24_data::{Section, Settings};

// The numbers of the functions and of the inline sources, the last section, which goes by the number of functions: numbers,
// as the sections are gone through by a range of them.
const FUNCTIONS: usize = 9;

const LAST: usize = 16;

// The place of the section asked for, where the pack is taken, and how its reading ended.
#[derive(Clone, Copy)]
pub struct Reached {
    pub section: usize,
    pub end: Step,
}

// The section numbered i. The number that comes with the answers is that of the functions so far.
fn number_section(s: &[u8], set: &Settings, i: usize, q: Read<u64>, tape: &mut [u32]) -> Read<u64>
    requires { (i < 16) × Ready s.now (step_of q) }
    ensures { Between (settings_of set.now) i (i + 1) s.now q tape.old result
        tape.new }
{
    let (n, c) = q?;
    if i == FUNCTIONS {
        return functions::number_functions(s, set, c, tape);
    }
    let x = vob24_data::section_at(i);
    with_number(n, deserialize::section(s, set, x, Ok(c), false, tape))
}

// The sections from that numbered `from` on, up to that numbered `to`.
fn number_sections(
    s: &[u8],
    set: &Settings,
    from: usize,
    to: usize,
    q: Read<u64>,
    tape: &mut [u32],
) -> Read<u64>
    requires { (from ≤ to) × (to ≤ 16) × Ready s.now (step_of q) }
    ensures { Between (settings_of set.now) from to s.now q tape.old result
        tape.new }
{
    let mut here = q;
    for i in from..to {
        here = number_section(s, set, i, here, tape);
    }
    here
}

// The answer so far with a number.
fn with_number(n: u64, r: Step) -> Read<u64>
    ensures { result ≡ with_number n r }
{
    r.map(|c| (n, c))
}

fn place_of(q: Read<u64>) -> usize
    ensures { result ≡ place_of q }
{
    match q {
        Ok((_, c)) => c.place,
        Err(x) => x.place,
    }
}

// The whole pack, up to the question of what comes after it.
pub fn reach_section(s: &[u8], set: &Settings, to: Section, r: Step, tape: &mut [u32]) -> Reached
    requires { Ready s.now r }
    ensures { Reaches (settings_of set.now) (section_of to) s.now r tape.old result
        tape.new }
{
    let r1 = fields::field_magic(s, r, tape);
    let r2 = fields::field_version(s, r1, tape);
    let i = vob24_data::section_number(to);
    let start = with_number(0, r2);
    let at = number_sections(s, set, 0, i, start, tape);
    let section = place_of(at);
    let last = number_sections(s, set, i, LAST, at, tape);
    match last {
        Ok((n, d)) => {
            let end = debug_info::inline_sources(s, set, Ok(d), n, tape);
            Reached { section, end }
        }
        Err(x) => Reached {
            section,
            end: Err(x),
        },
    }
}
