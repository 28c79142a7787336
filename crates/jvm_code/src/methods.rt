//! The runtime methods: the static methods of the class `erl/Rt` that code may call.

ghost use Rattle.std.specs.Prelude.{◌≡◌, map};
ghost use Rattle.std.specs.List.{find};
ghost use Rattle.std.specs.Option.{option_map};
ghost use Rattle.jvm_code.specs.RuntimeRows.{method_of};
ghost use Rattle.jvm_code.specs.Runtime.{methods, method_entries, method_numbered, number_by};

use ej_tables::{Numbered, TableOf};

/// A type that a runtime method takes or gives (JVMS SE 7, 4.3.2).
#[derive(Clone, Copy, Debug, PartialEq, Eq)]
pub enum FieldType {
    Int,
    Long,
    /// `erl/Proc`.
    Proc,
    /// `erl/Term`.
    Term,
    /// `erl/Trace`.
    Trace,
    /// `java/lang/String`.
    Str,
}

/// A row of the table of runtime methods.
#[derive(Clone, Copy, Debug)]
pub struct RuntimeRow {
    pub number: u16,
    pub name: &'static str,
    /// What it takes and gives, as JVMS SE 7, 4.3.3 spells it.
    pub descriptor: &'static str,
    pub takes: &'static [FieldType],
    /// None where it gives nothing.
    pub gives: Option<FieldType>,
}

macro_rules! row {
    ($number:literal, $name:literal, $descriptor:literal, ($($takes:ident),*)) => {
        RuntimeRow {
            number: $number,
            name: $name,
            descriptor: $descriptor,
            takes: &[$(FieldType::$takes),*],
            gives: None,
        }
    };
    ($number:literal, $name:literal, $descriptor:literal, ($($takes:ident),*) -> $gives:ident) => {
        RuntimeRow {
            number: $number,
            name: $name,
            descriptor: $descriptor,
            takes: &[$(FieldType::$takes),*],
            gives: Some(FieldType::$gives),
        }
    };
}

/// The methods, of which no two have one name.
static METHODS: [RuntimeRow; 52] = [
    row!(1, "take", "(Lerl/Proc;I)Lerl/Term;", (Proc, Int) -> Term),
    row!(2, "take_int", "(Lerl/Proc;I)I", (Proc, Int) -> Int),
    row!(3, "take_trace", "(Lerl/Proc;I)Lerl/Trace;", (Proc, Int) -> Trace),
    row!(4, "keep", "(Lerl/Proc;Lerl/Term;)V", (Proc, Term)),
    row!(5, "keep_int", "(Lerl/Proc;I)V", (Proc, Int)),
    row!(6, "keep_trace", "(Lerl/Proc;Lerl/Trace;)V", (Proc, Trace)),
    row!(7, "push", "(Lerl/Proc;II)V", (Proc, Int, Int)),
    row!(8, "arg", "(Lerl/Proc;Lerl/Term;)V", (Proc, Term)),
    row!(9, "enter", "(Lerl/Proc;)V", (Proc)),
    row!(10, "call", "(Lerl/Proc;Ljava/lang/String;)V", (Proc, Str)),
    row!(11, "apply", "(Lerl/Proc;Lerl/Term;Lerl/Term;)I", (Proc, Term, Term) -> Int),
    row!(12, "call_fun", "(Lerl/Proc;Lerl/Term;)I", (Proc, Term) -> Int),
    row!(13, "give", "(Lerl/Proc;Lerl/Term;)V", (Proc, Term)),
    row!(14, "result", "(Lerl/Proc;)Lerl/Term;", (Proc) -> Term),
    row!(15, "more", "(Lerl/Proc;)I", (Proc) -> Int),
    row!(16, "integer", "(J)Lerl/Term;", (Long) -> Term),
    row!(17, "lit", "(Ljava/lang/String;)Lerl/Term;", (Str) -> Term),
    row!(18, "cons", "(Lerl/Term;Lerl/Term;)Lerl/Term;", (Term, Term) -> Term),
    row!(19, "tuple", "(Lerl/Proc;)Lerl/Term;", (Proc) -> Term),
    row!(20, "make_fun", "(Lerl/Proc;Lerl/Term;I)Lerl/Term;", (Proc, Term, Int) -> Term),
    row!(21, "bif0", "(Lerl/Proc;I)Lerl/Term;", (Proc, Int) -> Term),
    row!(22, "bif1", "(Lerl/Proc;ILerl/Term;)Lerl/Term;", (Proc, Int, Term) -> Term),
    row!(23, "bif2", "(Lerl/Proc;ILerl/Term;Lerl/Term;)Lerl/Term;", (Proc, Int, Term, Term) -> Term),
    row!(24, "bif3", "(Lerl/Proc;ILerl/Term;Lerl/Term;Lerl/Term;)Lerl/Term;", (Proc, Int, Term, Term, Term) -> Term),
    row!(25, "guard0", "(Lerl/Proc;I)Lerl/Term;", (Proc, Int) -> Term),
    row!(26, "guard1", "(Lerl/Proc;ILerl/Term;)Lerl/Term;", (Proc, Int, Term) -> Term),
    row!(27, "guard2", "(Lerl/Proc;ILerl/Term;Lerl/Term;)Lerl/Term;", (Proc, Int, Term, Term) -> Term),
    row!(28, "guard3", "(Lerl/Proc;ILerl/Term;Lerl/Term;Lerl/Term;)Lerl/Term;", (Proc, Int, Term, Term, Term) -> Term),
    row!(29, "test1", "(ILerl/Term;)I", (Int, Term) -> Int),
    row!(30, "test2", "(ILerl/Term;Lerl/Term;)I", (Int, Term, Term) -> Int),
    row!(31, "test3", "(ILerl/Term;Lerl/Term;Lerl/Term;)I", (Int, Term, Term, Term) -> Int),
    row!(32, "arity", "(Lerl/Term;)I", (Term) -> Int),
    row!(33, "map_find", "(Lerl/Term;Lerl/Term;)Lerl/Term;", (Term, Term) -> Term),
    row!(34, "map_assoc", "(Lerl/Proc;Lerl/Term;)Lerl/Term;", (Proc, Term) -> Term),
    row!(35, "map_exact", "(Lerl/Proc;Lerl/Term;)Lerl/Term;", (Proc, Term) -> Term),
    row!(36, "map_assoc_guard", "(Lerl/Proc;Lerl/Term;)Lerl/Term;", (Proc, Term) -> Term),
    row!(37, "map_exact_guard", "(Lerl/Proc;Lerl/Term;)Lerl/Term;", (Proc, Term) -> Term),
    row!(38, "raise", "(Lerl/Proc;ILerl/Term;)V", (Proc, Int, Term)),
    row!(39, "raw", "(Lerl/Proc;Lerl/Term;Lerl/Term;)I", (Proc, Term, Term) -> Int),
    row!(
        40,
        "again",
        "(Lerl/Proc;Lerl/Trace;Lerl/Term;)V",
        (Proc, Trace, Term)
    ),
    row!(41, "opened", "(Lerl/Proc;Lerl/Term;)I", (Proc, Term) -> Int),
    row!(42, "caught_class", "(Lerl/Proc;)Lerl/Term;", (Proc) -> Term),
    row!(43, "caught_reason", "(Lerl/Proc;)Lerl/Term;", (Proc) -> Term),
    row!(44, "caught_trace", "(Lerl/Proc;)Lerl/Trace;", (Proc) -> Trace),
    row!(45, "catch_value", "(Lerl/Proc;Lerl/Term;)Lerl/Term;", (Proc, Term) -> Term),
    row!(46, "build", "(Lerl/Trace;)Lerl/Term;", (Trace) -> Term),
    row!(47, "peek", "(Lerl/Proc;)Lerl/Term;", (Proc) -> Term),
    row!(48, "advance", "(Lerl/Proc;)V", (Proc)),
    row!(49, "remove", "(Lerl/Proc;)V", (Proc)),
    row!(50, "timeout", "(Lerl/Proc;)V", (Proc)),
    row!(51, "timer", "(Lerl/Proc;Lerl/Term;)I", (Proc, Term) -> Int),
    row!(52, "woke", "(Lerl/Proc;)I", (Proc) -> Int),
];

impl Numbered for RuntimeRow {
    ghost use Rattle.ej_tables.specs.Rows.{Entry};

    ghost entry = { λ row. record { name = row.name.now; arity = 0; number = row.number } };

    fn is_named(&self, name: &[u8], arity: u8) -> bool {
        arity == 0 && self.name.as_bytes() == name
    }

    fn number(&self) -> u16 {
        self.number
    }
}

fn table() -> TableOf<RuntimeRow, 52>
    ensures rows { map method_of result ≡ methods }
    ensures entries { map (λ row. (method_of row).entry) result ≡ method_entries }
{
    TableOf::new(&METHODS)
}

/// The row of the runtime method of that number. None where there is none.
pub fn runtime_row(number: u16) -> Option<RuntimeRow>
    ensures { option_map method_of result ≡ method_numbered number }
{
    match table().by_number(number) {
        Some(row) => Some(*row),
        None => None,
    }
}

/// The number of the runtime method of that name and that descriptor. None where there is none.
pub fn runtime(name: &[u8], descriptor: &[u8]) -> Option<u16>
    ensures { result ≡ number_by name.now descriptor.now }
{
    let number = table().find(name, 0)?;
    let row = runtime_row(number)?;
    if row.descriptor.as_bytes() == descriptor {
        return Some(number);
    }
    None
}
