// The members of runtime types: the fields of a struct, no two with the same identity, and the methods of an interface,
// no two with the same name.
// Ports StructField and InterfaceMethod of runtime_type.rs and their reading by read_runtime_type of serialize.rs.
#![tactic(auto)]

ghost use Rattle.std.specs.Prelude.{false, Ok};
ghost use Rattle.vob24.specs.Settings.{settings_of};
ghost use Rattle.reader.specs.Contract.{ReadyAt, NumberOf};
ghost use Rattle.reader.specs.Accepted.{Accepted};
ghost use Rattle.runtime_members.specs.Formats.{field_format, new_fields, method_format, new_methods, new_count};

use fields::{Bool, ValueRttid};
use in_place::{Item, Table};
use lists::Entry;
use reader::{Cursor, Read, Step};
use vob24_data::{Settings, Size};

// ---- fields of structs

struct Field;

impl Entry for Field {
    ghost format = { λ _. field_format };

    ghost again = { λ _. false };

    // name, typ, tag, embedded, pkg
    fn read(&self, s: &[u8], r: Step, tape: &mut [u32]) -> Step {
        let name = fields::field_member_name(s, r, tape);
        let typ = fields::field::<ValueRttid>(s, name, tape);
        let tag = fields::field_str(s, typ, tape);
        let embedded = fields::field::<Bool>(s, tag, tape);
        fields::field_str(s, embedded, tape)
    }
}

// A struct's fields, no two with the same identity. Also returns their count.
pub fn number_new_fields(
    s: &[u8],
    set: &Settings,
    c: Cursor,
    again: bool,
    tape: &mut [u32],
) -> Read<u64>
    requires { (ReadyAt s.now c) × (Accepted again (new_fields (settings_of set.now)) s.now (Ok c)) }
    ensures { NumberOf (new_fields (settings_of set.now)) new_count s.now c
        tape.old result tape.new }
{
    let (n, d) = lists::number_list(s, set, c, Size::StructField, &Field, tape)?;
    let e = unique_names::asked(s, set, Table::Identities, Ok(c), Ok(d), again)?;
    Ok((n, e))
}

// ---- methods of interfaces

struct Method;

impl Entry for Method {
    ghost format = { λ _. method_format };

    ghost again = { λ _. false };

    // name, sig
    fn read(&self, s: &[u8], r: Step, tape: &mut [u32]) -> Step {
        let name = fields::field_member_name(s, r, tape);
        fields::field::<ValueRttid>(s, name, tape)
    }
}

// An interface's methods, no two with the same name. Also returns their count. Beside `number_new_fields`: one function for
// both would take size, entry and table as parameters, and require that they fit one another.
pub fn number_new_methods(
    s: &[u8],
    set: &Settings,
    c: Cursor,
    again: bool,
    tape: &mut [u32],
) -> Read<u64>
    requires { (ReadyAt s.now c) × (Accepted again (new_methods (settings_of set.now)) s.now (Ok c)) }
    ensures { NumberOf (new_methods (settings_of set.now)) new_count s.now c
        tape.old result tape.new }
{
    let (n, d) = lists::number_list(s, set, c, Size::InterfaceMethod, &Method, tape)?;
    let table = Table::Methods(Item::RuntimeMethod);
    let e = unique_names::asked(s, set, table, Ok(c), Ok(d), again)?;
    Ok((n, e))
}
