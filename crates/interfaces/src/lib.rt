// The interface section: each interface's method names and methods, then a set of each list's names.
// Ports what Module::deserialize of serialize.rs reads into InterfaceMeta and InterfaceMethodMeta of bytecode.rs.
#![tactic(auto)]

ghost use Rattle.std.specs.Prelude.{false};
ghost use Rattle.vob24.specs.Leaves.{member_name};
ghost use Rattle.vob24.specs.Settings.{settings_of};
ghost use Rattle.reader.specs.Contract.{Ready, Reader};
ghost use Rattle.reader.specs.Accepted.{Accepted};
ghost use Rattle.interfaces.specs.Interfaces.{method_format, interface_format, interface_list};

use fields::U32;
use in_place::{Item, Table};
use lists::Entry;
use reader::Step;
use vob24_data::{Settings, Size};

struct Name;

impl Entry for Name {
    ghost format = { λ _. member_name };

    ghost again = { λ _. false };

    fn read(&self, s: &[u8], r: Step, tape: &mut [u32]) -> Step {
        fields::field_member_name(s, r, tape)
    }
}

struct Method;

impl Entry for Method {
    ghost format = { λ _. method_format };

    ghost again = { λ _. false };

    fn read(&self, s: &[u8], r: Step, tape: &mut [u32]) -> Step {
        let name = fields::field_member_name(s, r, tape);
        fields::field::<U32>(s, name, tape)
    }
}

#[derive(Clone, Copy)]
struct Interface<'a> {
    set: &'a Settings,
    again: bool,
}

impl Entry for Interface<'_> {
    ghost format = { λ x. interface_format (settings_of x.set.now) };

    ghost again = { λ x. x.again };

    // Both lists are read before either set is charged and judged.
    fn read(&self, s: &[u8], r: Step, tape: &mut [u32]) -> Step {
        let set = self.set;
        let name = fields::field_str(s, r, tape);
        let names = lists::read_list(s, set, name, Size::String, &Name, tape);
        let methods = lists::read_list(s, set, names, Size::InterfaceMethodMeta, &Method, tape);
        let named = Table::Methods(Item::Name);
        let unique = unique_names::asked(s, set, named, name, methods, self.again);
        let typed = Table::Methods(Item::InterfaceMethod);
        unique_names::asked(s, set, typed, names, unique, self.again)
    }
}

// One call, under the section's name and contract: its entry stays private.
pub fn interfaces(s: &[u8], set: &Settings, r: Step, again: bool, tape: &mut [u32]) -> Step
    requires { (Ready s.now r) × (Accepted again (interface_list (settings_of set.now)) s.now r) }
    ensures { Reader (interface_list (settings_of set.now)) s.now r tape.old result
        tape.new }
{
    lists::read_list(
        s,
        set,
        r,
        Size::InterfaceMeta,
        &Interface { set, again },
        tape,
    )
}
