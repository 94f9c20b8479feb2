// The tables of a section: a count, and so many records of one kind.
ghost use Rattle.std.specs.Prelude.{ℕ, List};
ghost use Rattle.format.specs.Format.{Value, Format};
ghost use Rattle.vob24.specs.Settings.{settings_of};
ghost use Rattle.vob24.specs.Settings as vob;
ghost use Rattle.vob24.specs.Grammar.{list};
ghost use Rattle.in_place.specs.Contract.{Placed};
ghost use Rattle.alike_names.specs.Tables.{tables_in, WalksAt};

use crate::Walk;
use std::ops::ControlFlow;
use vob24_data::Settings;

pub(crate) trait Record {
    // The kind of its charge, its format, and its tables.
    ghost kind: { ℕ };

    ghost form: { vob.Settings → Format };

    ghost tables_of: { Value → List (List Value) };

    // The tables of the record at p.
    fn walk(s: &[u8], set: &Settings, p: usize) -> Walk
        requires { Placed (form (settings_of set.now)) s.now p }
        ensures { WalksAt (form (settings_of set.now)) tables_of s.now p result };
}

pub(crate) fn records<R: Record>(s: &[u8], set: &Settings, p: usize) -> Walk
    requires { Placed (list (settings_of set.now) R.kind (R.form (settings_of set.now))) s.now p }
    ensures { WalksAt (list (settings_of set.now) R.kind (R.form (settings_of set.now))) (tables_in R.tables_of)
        s.now p result }
{
    let n = in_place::word_at(s, p);
    let mut at = p + 4;
    for _ in 0..n {
        at = R::walk(s, set, at)?;
    }
    ControlFlow::Continue(at)
}
