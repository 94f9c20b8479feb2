// Questions on the names of a list that was read: is each new among those before it, and what does its key cost?
// Ports build_struct_field_index, validate_unique_interface_method_names, insert_named_method, and the check of runtime
// struct fields of serialize.rs.
// `as` stands between usize and u64, where Rust has no `From`.
#![tactic(auto)]

ghost use Rattle.std.specs.Prelude.{◌<◌, []};
ghost use Rattle.vob24.specs.Settings.{settings_of};
ghost use Rattle.vob24.specs.Grammar.{struct_field};
ghost use Rattle.reader.specs.Contract.{Asks};
ghost use Rattle.in_place.specs.Walk.{items_at};
ghost use Rattle.in_place.specs.Tables.{format_in};
ghost use Rattle.in_place.specs.Contract.{over, TextAt, Placed, Items, ListBehind, ListAsked};
ghost use Rattle.reader.specs.Accepted.{AsksAccepted};
ghost use Rattle.repeat_search.specs.Keys.{FirstRepeat};
ghost use Rattle.repeat_search.specs.Tables.{keys_at};
ghost use Rattle.unique_names.specs.Asking.{table_asks, list_asks};
ghost use Rattle.unique_names.specs.Contract.{ListAccepted, Charged, ChargedFor, Repeated, RepeatTold, Cost, Tallied, MethodBehind, MethodAsked};

use in_place::{Item, Table};
use reader::{Context, Cursor, Kind, Refusal, Step};
use vob24_data::{Settings, Size};

// ---- the charge and the refusal of an item

// The refusal of a repeat: where it starts, and its length.
fn repeated(s: &[u8], p: usize, c: Cursor, kind: Kind, context: u64) -> Step
    requires { TextAt s.now p }
    ensures { Repeated s.now p c kind context result }
{
    let len = in_place::word_at(s, p);
    Err(Refusal {
        kind,
        context,
        detail1: (p + 4) as u64,
        detail2: len as u64,
        place: c.place,
        left: c.left,
    })
}

// The refusal, at c, of the item at p. Reading puts no question on names alike: a match has an arm for them all the same.
// A `match`, as the arms are calls of different contracts: a closure's type would have to say each.
fn refuse_repeat(s: &[u8], table: Table, p: usize, c: Cursor) -> Step
    requires { Placed (format_in table) s.now p }
    ensures { RepeatTold table s.now p c result }
{
    match table {
        Table::Fields => repeated(s, p, c, Kind::DuplicateStructField, 0),
        Table::Methods(_) | Table::Alike(_) => {
            repeated(s, p, c, Kind::DuplicateInterfaceMethod, 0)
        }
        Table::Identities => {
            let package = in_place::package_at(s, p);
            repeated(
                s,
                p,
                c,
                Kind::DuplicateRuntimeStructField,
                (package + 4) as u64,
            )
        }
    }
}

// A struct field's name is charged; "_" is no key.
fn charge_field(s: &[u8], p: usize, c: Cursor) -> Step
    requires { Placed struct_field s.now p }
    ensures { Charged Table.Fields s.now p c result }
{
    if in_place::blank(s, p) {
        return Ok(c);
    }
    let len = in_place::word_at(s, p);
    reader::charge_allocation(c, Context::StructFieldKey, len as u64)
}

// A `match`, as a key is charged in one table only, under a contract of its own.
fn charge_key(s: &[u8], table: Table, p: usize, c: Cursor) -> Step
    requires { Placed (format_in table) s.now p }
    ensures { Charged table s.now p c result }
{
    match table {
        Table::Fields => charge_field(s, p, c),
        Table::Methods(_) | Table::Identities | Table::Alike(_) => Ok(c),
    }
}

// The questions on n items, one by one: an item's key is charged just before it is compared, and item `first` is the
// first that repeats another.
fn judged(s: &[u8], table: Table, from: usize, n: usize, first: usize, c: Cursor) -> Step
    requires { (Items (format_in table) n s.now from) × (FirstRepeat (keys_at table s.now from) n first) }
    ensures { Asks (over (table_asks table) [] (items_at (format_in table) n s.now from)) c result }
{
    let mut p = from;
    let mut here = c;
    for i in 0..n {
        here = charge_key(s, table, p, here)?;
        if i == first {
            return refuse_repeat(s, table, p, here);
        }
        p = in_place::past_item(s, table, p);
    }
    Ok(here)
}

// The questions on n items whose keys cost `cost` in all, item `first` being the first that repeats another: at once
// where there is none and all can be paid.
fn settled(
    s: &[u8],
    table: Table,
    from: usize,
    n: usize,
    first: usize,
    cost: u64,
    c: Cursor,
) -> Step
    requires { (Items (format_in table) n s.now from) × (FirstRepeat (keys_at table s.now from) n first)
        × (Cost table s.now from n cost) }
    ensures { Asks (over (table_asks table) [] (items_at (format_in table) n s.now from)) c result }
{
    if first < n {
        return judged(s, table, from, n, first, c);
    }
    let left = c.left;
    if left < cost {
        return judged(s, table, from, n, first, c);
    }
    Ok(Cursor {
        left: left - cost,
        ..c
    })
}

// The same, the first repeat being looked for in a first pass only: in a second there is none.
fn distinct(
    s: &[u8],
    table: Table,
    from: usize,
    n: usize,
    cost: u64,
    again: bool,
    c: Cursor,
) -> Step
    requires { (Items (format_in table) n s.now from) × (Cost table s.now from n cost)
        × (AsksAccepted again (over (table_asks table) [] (items_at (format_in table) n s.now from)) c) }
    ensures { Asks (over (table_asks table) [] (items_at (format_in table) n s.now from)) c result }
{
    if again {
        return settled(s, table, from, n, n, cost, c);
    }
    let first = repeat_search::first_repeat(s, table, from, n);
    settled(s, table, from, n, first, cost, c)
}

// ---- 16: the names of a struct's fields

// How many of n fields have a name other than "_", and how many bytes these names have.
#[derive(Clone, Copy)]
struct Tally {
    names: u64,
    bytes: u64,
}

fn named(s: &[u8], from: usize, n: usize) -> Tally
    requires { (Items struct_field n s.now from) × (n < 4294967296) }
    ensures { Tallied s.now from n result.names result.bytes }
{
    let mut at = from;
    let mut names: u64 = 0;
    let mut bytes: u64 = 0;
    for _ in 0..n {
        if !in_place::blank(s, at) {
            names += 1;
            bytes += in_place::word_at(s, at) as u64;
        }
        at = in_place::past(s, Item::StructField, at);
    }
    Tally { names, bytes }
}

// ---- 16, 17, 19: tables that are charged and then judged

// The charge of a table, and what its items' keys cost.
#[derive(Clone, Copy)]
struct Charge {
    context: Context,
    size: u64,
    keys: u64,
}

// Reading puts no question on names alike: the match has an arm for them all the same.
// A `match`, as it is a closed list of cases, one of which counts names by a contract of its own.
fn table_charge(s: &[u8], set: &Settings, table: Table, from: usize, n: usize) -> Charge
    requires { (Items (format_in table) n s.now from) × (n < 4294967296) }
    ensures { ChargedFor (settings_of set.now) table s.now from n result }
{
    match table {
        Table::Fields => {
            let tally = named(s, from, n);
            Charge {
                context: Context::StructFieldIndex,
                size: tally.names * Size::StringUsize.bytes(set),
                keys: tally.bytes,
            }
        }
        Table::Methods(_) | Table::Alike(_) => Charge {
            context: Context::InterfaceMethodSet,
            size: (n as u64) * (2 * Size::Str.bytes(set)),
            keys: 0,
        },
        Table::Identities => Charge {
            context: Context::RuntimeStructFieldSet,
            size: (n as u64) * (2 * Size::StrStr.bytes(set)),
            keys: 0,
        },
    }
}

// The questions on a table whose list was read at r, asked at r1: the index of a struct's fields, the set of an interface's
// methods, the set of a runtime struct's fields, where "_" is charged too. Inlined for speed, as measured: docs/CHANGES.md,
// "The design pass".
#[inline(always)]
pub fn asked(s: &[u8], set: &Settings, table: Table, r: Step, r1: Step, again: bool) -> Step
    requires { (ListBehind (format_in table) s.now r r1)
        × (ListAccepted again (format_in table) (λ vs. list_asks table (settings_of set.now) vs) s.now r r1) }
    ensures { ListAsked (format_in table) (λ vs. list_asks table (settings_of set.now) vs) s.now r r1 result }
{
    let d = r1?;
    let c = r?;
    let n = in_place::word_at(s, c.place);
    let from = c.place + 4;
    let charge = table_charge(s, set, table, from, n);
    let e = reader::charge_allocation(d, charge.context, charge.size)?;
    distinct(s, table, from, n, charge.keys, again, e)
}

// ---- 18: the methods of a named type

// The method that was read from r to r1, after n others from `from` on.
pub fn new_method(s: &[u8], from: usize, n: usize, r: Step, r1: Step) -> Step
    requires { MethodBehind s.now from n r r1 }
    ensures { MethodAsked s.now from n r r1 result }
{
    let d = r1?;
    let c = r?;
    let place = c.place;
    if in_place::seen(s, Table::Methods(Item::NamedMethod), from, n, place) {
        return repeated(s, place, d, Kind::DuplicateNamedMethod, 0);
    }
    Ok(d)
}
