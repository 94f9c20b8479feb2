// The named-type section: each named type's methods; a method's name is compared right after its record.
// Ports what Module::deserialize of serialize.rs reads into NamedTypeMeta and MethodInfo of bytecode.rs.
// `as` stands between usize and u64, where Rust has no `From`.
#![tactic(auto)]

ghost use Rattle.vob24.specs.Settings.{settings_of};
ghost use Rattle.reader.specs.Contract.{Ready, ReadyAt, Reader};
ghost use Rattle.reader.specs.Accepted.{Accepted};
ghost use Rattle.named_types.specs.NamedTypes.{named_method, named_methods, named_format, named_list, MethodsRead};

use fields::{Bool, U32, ValueMeta, ValueRttid};
use in_place::{Item, Table};
use lists::Entry;
use reader::{Cursor, Step};
use vob24_data::{Settings, Size};

fn method(s: &[u8], r: Step, tape: &mut [u32]) -> Step
    requires { Ready s.now r }
    ensures { Reader named_method s.now r tape.old result tape.new }
{
    let name = fields::field_member_name(s, r, tape);
    let func_id = fields::field::<U32>(s, name, tape);
    let is_pointer_receiver = fields::field::<Bool>(s, func_id, tape);
    let receiver_is_iface_boxed = fields::field::<Bool>(s, is_pointer_receiver, tape);
    fields::field::<U32>(s, receiver_is_iface_boxed, tape)
}

// How many methods were read, and the answer past them. The count is needed where the next one is refused, too: a repeat
// among those before it comes first.
#[derive(Clone, Copy)]
struct Run {
    count: usize,
    step: Step,
}

// Reads up to n methods; after method `first` asks whether its name is a repeat, and stops.
fn read_methods(s: &[u8], d: Cursor, n: usize, first: usize, tape: &mut [u32]) -> Run
    requires { ReadyAt s.now d }
    ensures { MethodsRead s.now d n first tape.old result.count result.step
        tape.new }
{
    let mut here = d;
    for i in 0..n {
        let read = method(s, Ok(here), tape);
        if i == first {
            let step = unique_names::new_method(s, d.place, i, Ok(here), read);
            return Run { count: i, step };
        }
        let Ok(e) = read else {
            return Run {
                count: i,
                step: read,
            };
        };
        here = e;
    }
    Run {
        count: n,
        step: Ok(here),
    }
}

// Reads all methods, then, in a first pass, looks for the first repeat; if there is one, reads again up to it, so that
// the refusal shows that method's place and budget.
fn methods(s: &[u8], set: &Settings, r: Step, again: bool, tape: &mut [u32]) -> Step
    requires { (Ready s.now r) × (Accepted again (named_methods (settings_of set.now)) s.now r) }
    ensures { Reader (named_methods (settings_of set.now)) s.now r tape.old result
        tape.new }
{
    let (n, d) = fields::number_method_count(s, set, r?, tape)?;
    let count = n as usize;
    let run = read_methods(s, d, count, count, tape);
    if again {
        return run.step;
    }
    let first = repeat_search::first_repeat(
        s,
        Table::Methods(Item::NamedMethod),
        d.place,
        run.count,
    );
    if first == run.count {
        return run.step;
    }
    read_methods(s, d, count, first, tape).step
}

#[derive(Clone, Copy)]
struct NamedType<'a> {
    set: &'a Settings,
    again: bool,
}

impl Entry for NamedType<'_> {
    ghost format = { λ x. named_format (settings_of x.set.now) };

    ghost again = { λ x. x.again };

    fn read(&self, s: &[u8], r: Step, tape: &mut [u32]) -> Step {
        let name = fields::field_str(s, r, tape);
        let underlying_meta = fields::field::<ValueMeta>(s, name, tape);
        let underlying_rttid = fields::field::<ValueRttid>(s, underlying_meta, tape);
        methods(s, self.set, underlying_rttid, self.again, tape)
    }
}

// One call, under the section's name and contract: its entry stays private.
pub fn named_types(s: &[u8], set: &Settings, r: Step, again: bool, tape: &mut [u32]) -> Step
    requires { (Ready s.now r) × (Accepted again (named_list (settings_of set.now)) s.now r) }
    ensures { Reader (named_list (settings_of set.now)) s.now r tape.old result
        tape.new }
{
    lists::read_list(
        s,
        set,
        r,
        Size::NamedTypeMeta,
        &NamedType { set, again },
        tape,
    )
}
