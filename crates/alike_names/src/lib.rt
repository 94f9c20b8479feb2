// Names that print alike, found where they stand in a pack that was read.
#![tactic(auto)]

ghost use Rattle.vob24.specs.Settings.{settings_of};
ghost use Rattle.vob24.specs.Grammar.{pack};
ghost use Rattle.in_place.specs.Contract.{Placed};
ghost use Rattle.alike_names.specs.Contract.{AlikeIn};
ghost use Rattle.alike_names.specs.Tables.{PackWalk};

use reader::Span;
use records::{Interface, NamedType, RuntimeType, Structure};
use sections::records;
use skips::past_itabs;
use std::ops::ControlFlow;
use vob24_data::Settings;

mod records;
mod search;
mod sections;
mod skips;

// Two names of one table that print alike.
#[derive(Clone, Copy, PartialEq, Eq, Debug)]
pub struct AlikeNames {
    pub earlier: Span,
    pub later: Span,
}

// The pair of a table, or the place past it.
type Walk = ControlFlow<AlikeNames, usize>;

// The pair of a pack's tables. Magic and version have seven bytes, and the pack's name stands behind them.
fn tables(s: &[u8], set: &Settings) -> Walk
    requires { Placed (pack (settings_of set.now)) s.now 0 }
    ensures { PackWalk (settings_of set.now) s.now result }
{
    let name = in_place::word_at(s, 7);
    let interfaces = records::<Structure>(s, set, 11 + name)?;
    let named_types = records::<Interface>(s, set, interfaces)?;
    let itabs = records::<NamedType>(s, set, named_types)?;
    let runtime_types = past_itabs(s, set, itabs);
    records::<RuntimeType>(s, set, runtime_types)
}

// The pair of a pack that was read, if it has one. No setting is read here: `set` says under which settings it was.
pub fn find_alike(s: &[u8], set: &Settings) -> Option<AlikeNames>
    requires { Placed (pack (settings_of set.now)) s.now 0 }
    ensures { AlikeIn (settings_of set.now) s.now result }
{
    tables(s, set).break_value()
}
