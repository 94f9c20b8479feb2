// The tables of one record.
ghost use Rattle.vob24.specs.Settings as of;
ghost use Rattle.vob24.specs.Grammar.{struct as struct_of, interface as interface_of, named_type, runtime_type};
ghost use Rattle.alike.specs.Alike.{interface_tables, runtime_tables};
ghost use Rattle.alike_names.specs.Tables.{struct_tables, named_tables};

use crate::Walk;
use crate::search::table;
use crate::sections::Record;
use crate::skips::past_variant;
use in_place::Item;
use std::ops::ControlFlow;
use vob24_data::Settings;

// The tag of an interface among the runtime types, as the file has it: of no other tag anything is asked here.
const INTERFACE_TAG: u8 = 9;

// A struct's fields, behind its slot types, each of one byte.
pub(crate) struct Structure;

impl Record for Structure {
    ghost kind = { of.StructMeta };

    ghost form = { struct_of };

    ghost tables_of = { struct_tables };

    fn walk(s: &[u8], set: &Settings, p: usize) -> Walk {
        let slots = in_place::word_at(s, p);
        let fields = p + 4 + slots;
        let n = in_place::word_at(s, fields);
        table(s, Item::StructField, fields + 4, n)
    }
}

// An interface's method names, and its methods.
pub(crate) struct Interface;

impl Record for Interface {
    ghost kind = { of.InterfaceMeta };

    ghost form = { interface_of };

    ghost tables_of = { interface_tables };

    fn walk(s: &[u8], set: &Settings, p: usize) -> Walk {
        let name = in_place::word_at(s, p);
        let names = p + 4 + name;
        let m = in_place::word_at(s, names);
        let methods = table(s, Item::Name, names + 4, m)?;
        let n = in_place::word_at(s, methods);
        table(s, Item::InterfaceMethod, methods + 4, n)
    }
}

// A named type's methods, behind its name and two words.
pub(crate) struct NamedType;

impl Record for NamedType {
    ghost kind = { of.NamedTypeMeta };

    ghost form = { named_type };

    ghost tables_of = { named_tables };

    fn walk(s: &[u8], set: &Settings, p: usize) -> Walk {
        let name = in_place::word_at(s, p);
        let methods = p + 4 + name + 8;
        let n = in_place::word_at(s, methods);
        table(s, Item::NamedMethod, methods + 4, n)
    }
}

// A runtime interface's methods; no other runtime type has a table.
pub(crate) struct RuntimeType;

impl Record for RuntimeType {
    ghost kind = { of.RuntimeType };

    ghost form = { runtime_type };

    ghost tables_of = { runtime_tables };

    fn walk(s: &[u8], set: &Settings, p: usize) -> Walk {
        let tag = s[p];
        if tag == INTERFACE_TAG {
            let methods = p + 5;
            let n = in_place::word_at(s, methods);
            return table(s, Item::RuntimeMethod, methods + 4, n);
        }
        ControlFlow::Continue(past_variant(s, set, tag, p + 1))
    }
}
