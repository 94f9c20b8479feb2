// The items of a list that was read, where they stand in the pack: their texts, the place past them, and whether two
// have the same key.
// Ports the comparisons behind the maps and sets of serialize.rs. There is no heap: names are compared where they
// stand.
// `as` stands between u32 and usize, where Rust has no `From`.
#![tactic(auto)]

ghost use Rattle.std.specs.Prelude.{◌≡◌, ◌+◌, ◌≤◌, ◌<◌, length};
ghost use Rattle.vob24.specs.Leaves.{str, optional};
ghost use Rattle.vob24.specs.Grammar.{runtime_field};
ghost use Rattle.in_place.specs.Items.{format_of, text_at};
ghost use Rattle.in_place.specs.Tables.{item_of, format_in};
ghost use Rattle.in_place.specs.Contract.{TextAt, WordIs, EndIs, SameText, SameFolded, SameName, BlankIs, Placed, Past, PackageIs, Items, PastItems, After, TwoPlaced, SamePackage, SameKey, Seen};

// The items that have a name; it is the first field of each.
#[derive(Clone, Copy)]
pub enum Item {
    Name,
    StructField,
    InterfaceMethod,
    RuntimeMethod,
    NamedMethod,
    RuntimeField,
}

// The items of a table have keys: names; packages and names in `Identities`; names with their letters decomposed in
// `Alike`. "_" is exempt in `Fields`, `Identities` and among the struct fields of `Alike`.
#[derive(Clone, Copy)]
pub enum Table {
    Fields,
    Methods(Item),
    Identities,
    Alike(Item),
}

// ---- texts

// The four-byte number at p.
pub fn word_at(s: &[u8], p: usize) -> usize
    requires { p + 4 ≤ length s.now }
    ensures { WordIs s.now p result }
{
    reader::le4([s[p], s[p + 1], s[p + 2], s[p + 3]]) as usize
}

fn past_text(s: &[u8], p: usize) -> usize
    requires { TextAt s.now p }
    ensures { EndIs s.now p result }
{
    p + 4 + word_at(s, p)
}

// The text at p.
fn text(s: &[u8], p: usize) -> &[u8]
    requires { TextAt s.now p }
    ensures { result.now ≡ text_at s.now p }
{
    let n = word_at(s, p);
    &s[p + 4..p + 4 + n]
}

// Are the texts at a and at b the same?
fn same_text(s: &[u8], a: usize, b: usize) -> bool
    requires { (TextAt s.now a) × (TextAt s.now b) }
    ensures { SameText s.now a b result }
{
    text(s, a) == text(s, b)
}

// Is the text at p "_"?
pub fn blank(s: &[u8], p: usize) -> bool
    requires { TextAt s.now p }
    ensures { BlankIs s.now p result }
{
    word_at(s, p) == 1 && s[p + 4] == b'_'
}

// ---- items

fn past_optional_text(s: &[u8], p: usize) -> usize
    requires { Placed (optional str) s.now p }
    ensures { Past (optional str) s.now p result }
{
    if s[p] == 0 {
        p + 1
    } else {
        past_text(s, p + 1)
    }
}

// The package text of the runtime struct's field at p.
pub fn package_at(s: &[u8], p: usize) -> usize
    requires { Placed runtime_field s.now p }
    ensures { PackageIs s.now p result }
{
    let typ = past_text(s, p);
    let embedded = past_text(s, typ + 4);
    embedded + 1
}

// A `match`, as the arms rest on different formats behind the name: a closure's type would have to say each.
pub fn past(s: &[u8], item: Item, p: usize) -> usize
    requires { Placed (format_of item) s.now p }
    ensures { Past (format_of item) s.now p result }
{
    let next = past_text(s, p);
    match item {
        Item::Name => next,
        Item::StructField => past_optional_text(s, next + 9),
        Item::InterfaceMethod | Item::RuntimeMethod => next + 4,
        Item::NamedMethod => next + 10,
        Item::RuntimeField => past_text(s, package_at(s, p)),
    }
}

// The place past n items from `from` on.
pub fn past_items(s: &[u8], item: Item, from: usize, n: usize) -> usize
    requires { Items (format_of item) n s.now from }
    ensures { PastItems (format_of item) n s.now from result }
{
    let mut p = from;
    for _ in 0..n {
        p = past(s, item, p);
    }
    p
}

// What the items of a table are. A `match`, as it is a closed list of cases.
pub fn item_of(table: Table) -> Item
    ensures { result ≡ item_of table }
{
    match table {
        Table::Fields => Item::StructField,
        Table::Methods(item) | Table::Alike(item) => item,
        Table::Identities => Item::RuntimeField,
    }
}

pub fn past_item(s: &[u8], table: Table, p: usize) -> usize
    requires { Placed (format_in table) s.now p }
    ensures { Past (format_in table) s.now p result }
{
    past(s, item_of(table), p)
}

// ---- keys

// Have the fields of a runtime struct at a and at b the same package?
fn same_package(s: &[u8], a: usize, b: usize) -> bool
    requires { TwoPlaced runtime_field s.now a b }
    ensures { SamePackage Table.Identities s.now a b result }
{
    same_text(s, package_at(s, a), package_at(s, b))
}

// Are the texts at a and at b the same with their letters decomposed?
fn same_folded(s: &[u8], a: usize, b: usize) -> bool
    requires { (TextAt s.now a) × (TextAt s.now b) }
    ensures { SameFolded s.now a b result }
{
    folding::same_folded(s, a + 4, word_at(s, a), b + 4, word_at(s, b))
}

// Have the items at a and at b the same name, as the table tells names apart?
// A `match`, as the arms are calls of different contracts: a closure's type would have to say each.
fn same_name(s: &[u8], table: Table, a: usize, b: usize) -> bool
    requires { (TextAt s.now a) × (TextAt s.now b) }
    ensures { SameName table s.now a b result }
{
    match table {
        Table::Fields | Table::Methods(_) | Table::Identities => same_text(s, a, b),
        Table::Alike(_) => same_folded(s, a, b),
    }
}

// Have the items at a and at b the same key? A `match`, as packages may be compared in one table only.
pub fn same_key(s: &[u8], table: Table, a: usize, b: usize) -> bool
    requires { TwoPlaced (format_in table) s.now a b }
    ensures { SameKey table s.now a b result }
{
    if !same_name(s, table, a, b) {
        return false;
    }
    match table {
        Table::Identities => same_package(s, a, b),
        _ => true,
    }
}

// Does the key of the item at p stand among those of the first n items from `from` on?
pub fn seen(s: &[u8], table: Table, from: usize, n: usize, p: usize) -> bool
    requires { After (format_in table) s.now from n p }
    ensures { Seen table s.now from n p result }
{
    let mut at = from;
    for _ in 0..n {
        if same_key(s, table, p, at) {
            return true;
        }
        at = past_item(s, table, at);
    }
    false
}
