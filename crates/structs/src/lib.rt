// The struct section: each struct's slot types and fields, then the index of its fields.
// Ports what Module::deserialize of serialize.rs reads into StructMeta and FieldMeta of bytecode.rs.
#![tactic(auto)]

ghost use Rattle.std.specs.Prelude.{false};
ghost use Rattle.vob24.specs.Settings.{settings_of};
ghost use Rattle.reader.specs.Contract.{Ready, Reader};
ghost use Rattle.reader.specs.Accepted.{Accepted};
ghost use Rattle.structs.specs.Structs.{field_format, struct_format, struct_list};

use fields::{Bool, U16, ValueRttid};
use in_place::Table;
use lists::Entry;
use reader::Step;
use vob24_data::{Settings, Size};

struct Field;

impl Entry for Field {
    ghost format = { λ _. field_format };

    ghost again = { λ _. false };

    fn read(&self, s: &[u8], r: Step, tape: &mut [u32]) -> Step {
        let name = fields::field_member_name(s, r, tape);
        let offset = fields::field::<U16>(s, name, tape);
        let slot_count = fields::field::<U16>(s, offset, tape);
        let type_info = fields::field::<ValueRttid>(s, slot_count, tape);
        let embedded = fields::field::<Bool>(s, type_info, tape);
        fields::field_optional_str(s, embedded, tape)
    }
}

#[derive(Clone, Copy)]
struct Structure<'a> {
    set: &'a Settings,
    again: bool,
}

impl Entry for Structure<'_> {
    ghost format = { λ x. struct_format (settings_of x.set.now) };

    ghost again = { λ x. x.again };

    // The field index is built after the whole list, from the list's place in the pack.
    fn read(&self, s: &[u8], r: Step, tape: &mut [u32]) -> Step {
        let set = self.set;
        let slot_types = slots::slot_types(s, set, r, tape);
        let fields = lists::read_list(s, set, slot_types, Size::FieldMeta, &Field, tape);
        unique_names::asked(s, set, Table::Fields, slot_types, fields, self.again)
    }
}

// One call, under the section's name and contract: its entry stays private.
pub fn structs(s: &[u8], set: &Settings, r: Step, again: bool, tape: &mut [u32]) -> Step
    requires { (Ready s.now r) × (Accepted again (struct_list (settings_of set.now)) s.now r) }
    ensures { Reader (struct_list (settings_of set.now)) s.now r tape.old result
        tape.new }
{
    lists::read_list(s, set, r, Size::StructMeta, &Structure { set, again }, tape)
}
