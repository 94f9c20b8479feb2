// The externs of a module, the functions of its host that it calls: none so far.
// Ports the extern list that Module::deserialize of serialize.rs reads, up to the list's charge.
#![tactic(auto)]

ghost use Rattle.vob24.specs.Settings.{settings_of};
ghost use Rattle.reader.specs.Contract.{Ready, Reader};
ghost use Rattle.externs.specs.Externs.{extern_list};

use reader::{Kind, Step};
use vob24_data::{Settings, Size};

// There is no extern: a pack that calls its host is refused, once its count is held against the bytes left and charged.
pub fn externs(s: &[u8], set: &Settings, r: Step, tape: &mut [u32]) -> Step
    requires { Ready s.now r }
    ensures { Reader (extern_list (settings_of set.now)) s.now r tape.old result
        tape.new }
{
    let (n, d) = fields::number_count(s, set, r?, Size::ExternDef, tape)?;
    if n != 0 {
        return Err(reader::refuse(d, Kind::HostCalls, n));
    }
    Ok(d)
}
