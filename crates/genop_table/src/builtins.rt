//! The builtin functions.

ghost use Rattle.std.specs.Prelude.{◌≡◌, map};
ghost use Rattle.std.specs.List.{list_any, find};
ghost use Rattle.std.specs.Option.{option_map, option_or};
ghost use Rattle.ej_tables.specs.Rows.{has_number};
ghost use Rattle.genop_table.specs.BuiltinRows.{builtin_of};
ghost use Rattle.genop_table.specs.Builtins.{Builtin, erlang_builtins, lists_builtins, maps_builtins, builtin_number, builtin_numbered, entries_of, is_guard, is_guard_name as guard_is_named, is_guard_named, does_return};

use ej_tables::{Numbered, TableOf};

/// Where a builtin may stand.
#[derive(Clone, Copy, Debug, PartialEq, Eq)]
pub enum Standing {
    /// In guards, and so in `bif` and `gc_bif`, and in bodies.
    Guard,
    /// In bodies alone.
    Body,
}

/// What a builtin does.
#[derive(Clone, Copy, Debug, PartialEq, Eq)]
pub enum Conduct {
    /// It gives a value or raises an exception, by its arguments alone.
    Value,
    /// It raises an exception, by its arguments alone, and never comes back.
    Leaves,
    /// It has an effect, or its value is not told by its arguments alone.
    Effect,
}

/// A row of the tables of builtins: a function of `erlang`, `lists` or `maps`.
#[derive(Clone, Copy, Debug)]
pub struct BuiltinRow {
    pub number: u16,
    pub name: &'static str,
    pub arity: u8,
    pub standing: Standing,
    pub conduct: Conduct,
}

macro_rules! row {
    ($number:literal, $name:literal, $arity:literal, $standing:ident, $conduct:ident) => {
        BuiltinRow {
            number: $number,
            name: $name,
            arity: $arity,
            standing: Standing::$standing,
            conduct: Conduct::$conduct,
        }
    };
}

/// Those of the module `erlang`.
static ERLANG: [BuiltinRow; 76] = [
    row!(1, "+", 2, Guard, Value),
    row!(2, "-", 2, Guard, Value),
    row!(3, "*", 2, Guard, Value),
    row!(4, "div", 2, Guard, Value),
    row!(5, "rem", 2, Guard, Value),
    row!(6, "band", 2, Guard, Value),
    row!(7, "bor", 2, Guard, Value),
    row!(8, "bxor", 2, Guard, Value),
    row!(9, "bsl", 2, Guard, Value),
    row!(10, "bsr", 2, Guard, Value),
    row!(11, "-", 1, Guard, Value),
    row!(12, "+", 1, Guard, Value),
    row!(13, "bnot", 1, Guard, Value),
    row!(14, "abs", 1, Guard, Value),
    row!(15, "==", 2, Guard, Value),
    row!(16, "/=", 2, Guard, Value),
    row!(17, "=<", 2, Guard, Value),
    row!(18, "<", 2, Guard, Value),
    row!(19, ">=", 2, Guard, Value),
    row!(20, ">", 2, Guard, Value),
    row!(21, "=:=", 2, Guard, Value),
    row!(22, "=/=", 2, Guard, Value),
    row!(23, "not", 1, Guard, Value),
    row!(24, "and", 2, Guard, Value),
    row!(25, "or", 2, Guard, Value),
    row!(26, "xor", 2, Guard, Value),
    row!(27, "hd", 1, Guard, Value),
    row!(28, "tl", 1, Guard, Value),
    row!(29, "length", 1, Guard, Value),
    row!(30, "tuple_size", 1, Guard, Value),
    row!(31, "element", 2, Guard, Value),
    row!(32, "map_size", 1, Guard, Value),
    row!(33, "map_get", 2, Guard, Value),
    row!(34, "is_map_key", 2, Guard, Value),
    row!(35, "self", 0, Guard, Effect),
    row!(36, "is_atom", 1, Guard, Value),
    row!(37, "is_integer", 1, Guard, Value),
    row!(38, "is_number", 1, Guard, Value),
    row!(39, "is_list", 1, Guard, Value),
    row!(40, "is_tuple", 1, Guard, Value),
    row!(41, "is_pid", 1, Guard, Value),
    row!(42, "is_reference", 1, Guard, Value),
    row!(43, "is_function", 1, Guard, Value),
    row!(44, "is_map", 1, Guard, Value),
    row!(45, "is_boolean", 1, Guard, Value),
    row!(46, "is_float", 1, Guard, Value),
    row!(47, "is_binary", 1, Guard, Value),
    row!(48, "is_function", 2, Guard, Value),
    row!(49, "max", 2, Body, Value),
    row!(50, "min", 2, Body, Value),
    row!(51, "++", 2, Body, Value),
    row!(52, "--", 2, Body, Value),
    row!(53, "setelement", 3, Body, Value),
    row!(54, "tuple_to_list", 1, Body, Value),
    row!(55, "list_to_tuple", 1, Body, Value),
    row!(56, "make_tuple", 2, Body, Value),
    row!(71, "atom_to_list", 1, Body, Value),
    row!(72, "integer_to_list", 1, Body, Value),
    row!(73, "list_to_integer", 1, Body, Value),
    row!(74, "error", 1, Body, Leaves),
    row!(75, "error", 2, Body, Leaves),
    row!(76, "exit", 1, Body, Leaves),
    row!(77, "throw", 1, Body, Leaves),
    row!(78, "raise", 3, Body, Value),
    row!(79, "!", 2, Body, Effect),
    row!(80, "send", 2, Body, Effect),
    row!(81, "spawn", 1, Body, Effect),
    row!(82, "spawn", 3, Body, Effect),
    row!(83, "spawn_link", 1, Body, Effect),
    row!(84, "spawn_link", 3, Body, Effect),
    row!(85, "link", 1, Body, Effect),
    row!(86, "unlink", 1, Body, Effect),
    row!(87, "exit", 2, Body, Effect),
    row!(88, "process_flag", 2, Body, Effect),
    row!(89, "display", 1, Body, Effect),
    row!(90, "make_ref", 0, Body, Effect),
];

/// Those of the module `lists`.
static LISTS: [BuiltinRow; 3] = [
    row!(57, "reverse", 2, Body, Value),
    row!(58, "member", 2, Body, Value),
    row!(59, "keyfind", 3, Body, Value),
];

/// Those of the module `maps`.
static MAPS: [BuiltinRow; 11] = [
    row!(60, "get", 2, Body, Value),
    row!(61, "find", 2, Body, Value),
    row!(62, "put", 3, Body, Value),
    row!(63, "update", 3, Body, Value),
    row!(64, "remove", 2, Body, Value),
    row!(65, "is_key", 2, Body, Value),
    row!(66, "keys", 1, Body, Value),
    row!(67, "values", 1, Body, Value),
    row!(68, "to_list", 1, Body, Value),
    row!(69, "from_list", 1, Body, Value),
    row!(70, "merge", 2, Body, Value),
];

impl Numbered for BuiltinRow {
    ghost use Rattle.ej_tables.specs.Rows.{Entry};

    ghost entry = { λ row. record { name = row.name.now; arity = row.arity; number = row.number } };

    fn is_named(&self, name: &[u8], arity: u8) -> bool {
        self.arity == arity && self.name.as_bytes() == name
    }

    fn number(&self) -> u16 {
        self.number
    }
}

fn erlang_rows() -> &'static [BuiltinRow; 76]
    ensures { map builtin_of result.now ≡ erlang_builtins }
{
    &ERLANG
}

fn erlang() -> TableOf<BuiltinRow, 76>
    ensures rows { map builtin_of result ≡ erlang_builtins }
    ensures entries { map (λ row. (builtin_of row).entry) result ≡ entries_of erlang_builtins }
{
    TableOf::new(&ERLANG)
}

fn lists() -> TableOf<BuiltinRow, 3>
    ensures rows { map builtin_of result ≡ lists_builtins }
    ensures entries { map (λ row. (builtin_of row).entry) result ≡ entries_of lists_builtins }
{
    TableOf::new(&LISTS)
}

fn maps() -> TableOf<BuiltinRow, 11>
    ensures rows { map builtin_of result ≡ maps_builtins }
    ensures entries { map (λ row. (builtin_of row).entry) result ≡ entries_of maps_builtins }
{
    TableOf::new(&MAPS)
}

/// The number of the builtin of that module, name and arity, both names as UTF-8 bytes. None where there is none.
pub fn builtin(module: &[u8], name: &[u8], arity: u8) -> Option<u16>
    ensures { result ≡ builtin_number «module».now name.now arity }
{
    if module == b"erlang".as_slice() {
        return erlang().find(name, arity);
    }
    if module == b"lists".as_slice() {
        return lists().find(name, arity);
    }
    if module == b"maps".as_slice() {
        return maps().find(name, arity);
    }
    None
}

/// The row of the builtin of that number. None where no builtin has it.
pub fn builtin_row(number: u16) -> Option<BuiltinRow>
    ensures { option_map builtin_of result ≡ builtin_numbered number }
{
    if let Some(row) = erlang_row(number) {
        return Some(row);
    }
    if let Some(row) = lists_row(number) {
        return Some(row);
    }
    maps_row(number)
}

fn erlang_row(number: u16) -> Option<BuiltinRow>
    ensures { option_map builtin_of result ≡ find (λ (b : Builtin). has_number number b.entry) erlang_builtins }
{
    match erlang().by_number(number) {
        Some(row) => Some(*row),
        None => None,
    }
}

fn lists_row(number: u16) -> Option<BuiltinRow>
    ensures { option_map builtin_of result ≡ find (λ (b : Builtin). has_number number b.entry) lists_builtins }
{
    match lists().by_number(number) {
        Some(row) => Some(*row),
        None => None,
    }
}

fn maps_row(number: u16) -> Option<BuiltinRow>
    ensures { option_map builtin_of result ≡ find (λ (b : Builtin). has_number number b.entry) maps_builtins }
{
    match maps().by_number(number) {
        Some(row) => Some(*row),
        None => None,
    }
}

/// Whether a builtin of the module `erlang` with that name, as UTF-8 bytes, may stand in a guard, whatever its arity.
pub fn is_guard_name(name: &[u8]) -> bool
    ensures { result ≡ guard_is_named name.now }
{
    any_guard(erlang_rows(), name)
}

// Whether one of the rows is of a guard builtin with that name.
fn any_guard(rows: &[BuiltinRow], name: &[u8]) -> bool
    ensures { result ≡ list_any (is_guard_named name.now) (map builtin_of rows.now) }
{
    for row in rows {
        if is_named_guard(row, name) {
            return true;
        }
    }
    false
}

fn is_named_guard(row: &BuiltinRow, name: &[u8]) -> bool
    ensures { result ≡ is_guard_named name.now (builtin_of row.now) }
{
    match row.standing {
        Standing::Guard => row.name.as_bytes() == name,
        Standing::Body => false,
    }
}

/// Whether the builtin of that number may stand in a guard.
pub fn guard(number: u16) -> bool
    ensures { result ≡ is_guard number }
{
    match builtin_row(number) {
        Some(row) => matches!(row.standing, Standing::Guard),
        None => false,
    }
}

/// Whether the builtin of that number may come back with a value; true of a number that no builtin has.
pub fn returns(number: u16) -> bool
    ensures { result ≡ does_return number }
{
    match builtin_row(number) {
        Some(row) => !matches!(row.conduct, Conduct::Leaves),
        None => true,
    }
}
