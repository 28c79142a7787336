//! The tests.

ghost use Rattle.std.specs.Prelude.{◌≡◌, map};
ghost use Rattle.std.specs.Option.{option_map};
ghost use Rattle.ej_tables.specs.Rows.{number_of};
ghost use Rattle.genop_table.specs.TestRows.{test_of};
ghost use Rattle.genop_table.specs.Tests.{tests, test_entries, arguments_of};

use ej_tables::{Numbered, TableOf};

/// What a test takes behind its label.
#[derive(Clone, Copy, Debug, PartialEq, Eq)]
pub enum TestArguments {
    /// One source.
    OneSource,
    /// Two sources.
    TwoSources,
    /// A source and the size of a tuple, a count.
    SourceAndSize,
    /// A source, the size of a tuple and its first element, an atom.
    SourceSizeAndTag,
}

/// A row of the table of tests.
#[derive(Clone, Copy, Debug)]
pub struct TestRow {
    pub number: u16,
    pub name: &'static str,
    pub arguments: TestArguments,
}

macro_rules! row {
    ($number:literal, $name:literal, $arguments:ident) => {
        TestRow { number: $number, name: $name, arguments: TestArguments::$arguments }
    };
}

/// The tests, by name alone.
static TESTS: [TestRow; 25] = [
    row!(1, "is_lt", TwoSources),
    row!(2, "is_ge", TwoSources),
    row!(3, "is_eq", TwoSources),
    row!(4, "is_ne", TwoSources),
    row!(5, "is_eq_exact", TwoSources),
    row!(6, "is_ne_exact", TwoSources),
    row!(7, "is_integer", OneSource),
    row!(8, "is_number", OneSource),
    row!(9, "is_atom", OneSource),
    row!(10, "is_pid", OneSource),
    row!(11, "is_reference", OneSource),
    row!(12, "is_nil", OneSource),
    row!(13, "is_list", OneSource),
    row!(14, "is_nonempty_list", OneSource),
    row!(15, "is_tuple", OneSource),
    row!(16, "test_arity", SourceAndSize),
    row!(17, "is_boolean", OneSource),
    row!(18, "is_function", OneSource),
    row!(19, "is_function2", TwoSources),
    row!(20, "is_map", OneSource),
    row!(21, "is_tagged_tuple", SourceSizeAndTag),
    row!(22, "is_float", OneSource),
    row!(23, "is_binary", OneSource),
    row!(24, "is_bitstr", OneSource),
    row!(25, "is_port", OneSource),
];

impl Numbered for TestRow {
    ghost use Rattle.ej_tables.specs.Rows.{Entry};

    ghost entry = { λ row. record { name = row.name.now; arity = 0; number = row.number } };

    fn is_named(&self, name: &[u8], arity: u8) -> bool {
        arity == 0 && self.name.as_bytes() == name
    }

    fn number(&self) -> u16 {
        self.number
    }
}

fn table() -> TableOf<TestRow, 25>
    ensures rows { map test_of result ≡ tests }
    ensures entries { map (λ row. (test_of row).entry) result ≡ test_entries }
{
    TableOf::new(&TESTS)
}

/// The number of the test of that name, as UTF-8 bytes. None where there is none.
pub fn test(name: &[u8]) -> Option<u16>
    ensures { result ≡ number_of name.now 0 test_entries }
{
    table().find(name, 0)
}

/// What the test of that number takes. None where no test has it.
pub fn test_arguments(test: u16) -> Option<TestArguments>
    ensures { result ≡ arguments_of test }
{
    match table().by_number(test) {
        Some(row) => Some(row.arguments),
        None => None,
    }
}
