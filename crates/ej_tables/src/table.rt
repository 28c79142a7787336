//! Tables of names with numbers.

ghost use Rattle.std.specs.Prelude.{◌≡◌, ◌*◌, ◌<◌, ◌^◌, List, map, true};
ghost use Rattle.std.specs.List.{find};
ghost use Rattle.std.specs.Option.{option_map};
ghost use Rattle.std.specs.Mem.{type_size};
ghost use Rattle.ej_tables.specs.Rows.{FindsEach, are_distinct, has_number, is_named, number_of};

use std::marker::Model;

/// A row: a name with an arity, and its number.
#[derive(Clone, Copy, Debug)]
pub struct Row {
    pub name: &'static str,
    pub arity: u8,
    pub number: u16,
}

/// What a table's rows are seen as.
pub trait Numbered {
    ghost use Rattle.ej_tables.specs.Rows.{Entry};

    ghost entry: { Self → Entry };

    /// Whether the row has that name, as UTF-8 bytes, and that arity.
    fn is_named(&self, name: &[u8], arity: u8) -> bool
        ensures { result ≡ is_named name.now arity (entry self.now) };

    /// The row's number.
    fn number(&self) -> u16
        ensures { result ≡ (entry self.now).number };
}

impl Numbered for Row {
    ghost use Rattle.ej_tables.specs.Rows.{Entry};

    ghost entry = { λ row. record { name = row.name.now; arity = row.arity; number = row.number } };

    fn is_named(&self, name: &[u8], arity: u8) -> bool {
        self.arity == arity && self.name.as_bytes() == name
    }

    fn number(&self) -> u16 {
        self.number
    }
}

/// A table of N rows, of which no two have the same name and arity, or the same number. It is over any kind of
/// row, and `Table` is that of a `Row`.
#[derive(Drop)]
pub struct TableOf<R: Numbered + 'static, const N: usize> {
    rows: &'static [R],
    ghost distinct: { are_distinct (map R.entry rows.now) ≡ true },
}

impl<R: Numbered, const N: usize> Model for TableOf<R, N> {
    ghost use Rattle.std.specs.Prelude.{List};

    ghost Value = { List R };

    ghost view = { λ table. table.rows.now };
}

/// A table of rows.
pub type Table<const N: usize> = TableOf<Row, N>;

impl<R: Numbered, const N: usize> TableOf<R, N> {
    /// The table of these rows. An array takes fewer than 2^63 bytes, as any does that there is.
    #[tactic(auto, using(crate::proofs::FindLaw::finds_each))]
    pub fn new(rows: &'static [R; N]) -> TableOf<R, N>
        requires distinct { are_distinct (map R.entry rows.now) ≡ true }
        requires in_memory { N * type_size R.row < 2 ^ 63 }
        ensures rows { result ≡ rows.now }
        ensures finds_each { FindsEach (map R.entry rows.now) }
    {
        TableOf { rows }
    }

    /// The number of the row of that name, as UTF-8 bytes, and that arity. None where no row has them.
    pub fn find(&self, name: &[u8], arity: u8) -> Option<u16>
        ensures { result ≡ number_of name.now arity (map R.entry self.now) }
    {
        let rows = self.rows;
        find_named(rows, name, arity)
    }

    /// The row of that number. None where no row has it.
    pub fn by_number(&self, number: u16) -> Option<&R>
        ensures { option_map (λ row. row.now) result ≡ find (λ row. has_number number (R.entry row)) self.now }
    {
        let rows = self.rows;
        find_numbered(rows, number)
    }
}

// The number of the row of that name and arity.
fn find_named<R: Numbered>(rows: &[R], name: &[u8], arity: u8) -> Option<u16>
    ensures { result ≡ number_of name.now arity (map R.entry rows.now) }
{
    for row in rows {
        if row.is_named(name, arity) {
            return Some(row.number());
        }
    }
    None
}

// The row of that number.
fn find_numbered<R: Numbered>(rows: &[R], number: u16) -> Option<&R>
    ensures { option_map (λ row. row.now) result ≡ find (λ row. has_number number (R.entry row)) rows.now }
{
    for row in rows {
        if row.number() == number {
            return Some(row);
        }
    }
    None
}
