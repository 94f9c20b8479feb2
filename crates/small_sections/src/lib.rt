// The tables of a module: itabs, well-known ids, globals, artifacts.
// Ports what Module::deserialize of serialize.rs reads into the records of bytecode.rs.
#![tactic(auto)]

ghost use Rattle.std.specs.Prelude.{false};
ghost use Rattle.vob24.specs.Settings.{settings_of};
ghost use Rattle.reader.specs.Contract.{Ready, Reader};
ghost use Rattle.small_sections.specs.Tables.{itab_format, itab_list, field_offsets, error_format, object_format, well_known, global_format, global_list, artifact_format, artifact_list};

use fields::{Bool, U16, U32, ValueKind};
use lists::Entry;
use reader::Step;
use vob24_data::{Settings, Size};

#[derive(Clone, Copy)]
struct Itab<'a> {
    set: &'a Settings,
}

impl Entry for Itab<'_> {
    ghost format = { λ x. itab_format (settings_of x.set.now) };

    ghost again = { λ _. false };

    fn read(&self, s: &[u8], r: Step, tape: &mut [u32]) -> Step {
        let iface_meta_id = fields::field::<U32>(s, r, tape);
        lists::read_list(s, self.set, iface_meta_id, Size::U32, &U32, tape)
    }
}

// One call, under the section's name and contract: its entry stays private.
pub fn itabs(s: &[u8], set: &Settings, r: Step, tape: &mut [u32]) -> Step
    requires { Ready s.now r }
    ensures { Reader (itab_list (settings_of set.now)) s.now r tape.old result
        tape.new }
{
    lists::read_list(s, set, r, Size::Itab, &Itab { set }, tape)
}

// ---- well-known ids

// Two offsets, where there are any.
fn error_field_offsets(s: &[u8], r: Step, tape: &mut [u32]) -> Step
    requires { Ready s.now r }
    ensures { Reader field_offsets s.now r tape.old result tape.new }
{
    let (n, d) = fields::number::<Bool>(s, r?, tape)?;
    let here = Ok(d);
    if n == 0 {
        return here;
    }
    let first = fields::field::<U16>(s, here, tape);
    fields::field::<U16>(s, first, tape)
}

fn error_types(s: &[u8], r: Step, tape: &mut [u32]) -> Step
    requires { Ready s.now r }
    ensures { Reader error_format s.now r tape.old result tape.new }
{
    let error_named_type_id = fields::field_optional_id(s, r, tape);
    let error_iface_meta_id = fields::field_optional_id(s, error_named_type_id, tape);
    let error_ptr_rttid = fields::field_optional_id(s, error_iface_meta_id, tape);
    let error_struct_meta_id = fields::field_optional_id(s, error_ptr_rttid, tape);
    error_field_offsets(s, error_struct_meta_id, tape)
}

fn object_interfaces(s: &[u8], r: Step, tape: &mut [u32]) -> Step
    requires { Ready s.now r }
    ensures { Reader object_format s.now r tape.old result tape.new }
{
    let attr_object_iface_id = fields::field_optional_id(s, r, tape);
    let set_attr_object_iface_id = fields::field_optional_id(s, attr_object_iface_id, tape);
    let index_object_iface_id = fields::field_optional_id(s, set_attr_object_iface_id, tape);
    let set_index_object_iface_id = fields::field_optional_id(s, index_object_iface_id, tape);
    fields::field_optional_id(s, set_index_object_iface_id, tape)
}

pub fn well_known(s: &[u8], r: Step, tape: &mut [u32]) -> Step
    requires { Ready s.now r }
    ensures { Reader well_known s.now r tape.old result tape.new }
{
    let errors = error_types(s, r, tape);
    object_interfaces(s, errors, tape)
}

// ---- globals

#[derive(Clone, Copy)]
struct Global<'a> {
    set: &'a Settings,
}

impl Entry for Global<'_> {
    ghost format = { λ x. global_format (settings_of x.set.now) };

    ghost again = { λ _. false };

    fn read(&self, s: &[u8], r: Step, tape: &mut [u32]) -> Step {
        let name = fields::field_str(s, r, tape);
        let slots = fields::field::<U16>(s, name, tape);
        let value_kind = fields::field::<ValueKind>(s, slots, tape);
        let meta_id = fields::field::<U32>(s, value_kind, tape);
        slots::slot_types(s, self.set, meta_id, tape)
    }
}

// One call, under the section's name and contract: its entry stays private.
pub fn globals(s: &[u8], set: &Settings, r: Step, tape: &mut [u32]) -> Step
    requires { Ready s.now r }
    ensures { Reader (global_list (settings_of set.now)) s.now r tape.old result
        tape.new }
{
    lists::read_list(s, set, r, Size::GlobalDef, &Global { set }, tape)
}

// ---- artifacts

#[derive(Clone, Copy)]
struct Artifact<'a> {
    set: &'a Settings,
}

impl Entry for Artifact<'_> {
    ghost format = { λ x. artifact_format (settings_of x.set.now) };

    ghost again = { λ _. false };

    fn read(&self, s: &[u8], r: Step, tape: &mut [u32]) -> Step {
        let name = fields::field_artifact_name(s, self.set, r, tape);
        let version = fields::field::<U32>(s, name, tape);
        fields::field_artifact_payload(s, self.set, version, tape)
    }
}

pub fn artifacts(s: &[u8], set: &Settings, r: Step, tape: &mut [u32]) -> Step
    requires { Ready s.now r }
    ensures { Reader (artifact_list (settings_of set.now)) s.now r tape.old result
        tape.new }
{
    let (n, d) = fields::number_artifact_count(s, set, r?, tape)?;
    lists::entries(s, Ok(d), n, &Artifact { set }, tape)
}
