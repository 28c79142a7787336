//! The opcodes.

ghost use Rattle.std.specs.Prelude.{◌≡◌, map};
ghost use Rattle.std.specs.Option.{option_map};
ghost use Rattle.ej_tables.specs.Rows.{number_of};
ghost use Rattle.jvm_code.specs.OpcodeRows.{opcode_of};
ghost use Rattle.jvm_code.specs.Opcodes.{opcodes, opcode_entries, opcode_numbered};

use ej_tables::{Numbered, TableOf};

/// What stands behind an opcode.
#[derive(Clone, Copy, Debug, PartialEq, Eq)]
pub enum Operands {
    /// Nothing.
    None,
    /// A signed number of one byte.
    Byte,
    /// A signed number of two bytes.
    Short,
    /// A pool index of one byte.
    ByteIndex,
    /// A pool index of two bytes.
    Index,
    /// The number of a local, of one byte, or of two behind `wide`.
    Local,
    /// A branch offset of two bytes.
    Branch,
    /// Padding, the default's offset, the low and the high value, and an offset for each value.
    Table,
    /// Padding, the default's offset, a count, and so many values with their offsets.
    Lookup,
    /// The opcode of an instruction on a local, and then its local in two bytes.
    Wide,
}

/// A row of the table of opcodes (JVMS SE 7, 6.5).
#[derive(Clone, Copy, Debug)]
pub struct OpcodeRow {
    pub number: u16,
    pub name: &'static str,
    pub operands: Operands,
}

macro_rules! row {
    ($number:literal, $name:literal, $operands:ident) => {
        OpcodeRow { number: $number, name: $name, operands: Operands::$operands }
    };
}

/// The opcodes of the profile.
static OPCODES: [OpcodeRow; 60] = [
    row!(1, "aconst_null", None),
    row!(2, "iconst_m1", None),
    row!(3, "iconst_0", None),
    row!(4, "iconst_1", None),
    row!(5, "iconst_2", None),
    row!(6, "iconst_3", None),
    row!(7, "iconst_4", None),
    row!(8, "iconst_5", None),
    row!(16, "bipush", Byte),
    row!(17, "sipush", Short),
    row!(18, "ldc", ByteIndex),
    row!(19, "ldc_w", Index),
    row!(20, "ldc2_w", Index),
    row!(21, "iload", Local),
    row!(25, "aload", Local),
    row!(26, "iload_0", None),
    row!(27, "iload_1", None),
    row!(28, "iload_2", None),
    row!(29, "iload_3", None),
    row!(42, "aload_0", None),
    row!(43, "aload_1", None),
    row!(44, "aload_2", None),
    row!(45, "aload_3", None),
    row!(54, "istore", Local),
    row!(58, "astore", Local),
    row!(59, "istore_0", None),
    row!(60, "istore_1", None),
    row!(61, "istore_2", None),
    row!(62, "istore_3", None),
    row!(75, "astore_0", None),
    row!(76, "astore_1", None),
    row!(77, "astore_2", None),
    row!(78, "astore_3", None),
    row!(87, "pop", None),
    row!(89, "dup", None),
    row!(95, "swap", None),
    row!(96, "iadd", None),
    row!(100, "isub", None),
    row!(153, "ifeq", Branch),
    row!(154, "ifne", Branch),
    row!(155, "iflt", Branch),
    row!(156, "ifge", Branch),
    row!(157, "ifgt", Branch),
    row!(158, "ifle", Branch),
    row!(159, "if_icmpeq", Branch),
    row!(160, "if_icmpne", Branch),
    row!(161, "if_icmplt", Branch),
    row!(162, "if_icmpge", Branch),
    row!(163, "if_icmpgt", Branch),
    row!(164, "if_icmple", Branch),
    row!(165, "if_acmpeq", Branch),
    row!(166, "if_acmpne", Branch),
    row!(167, "goto", Branch),
    row!(170, "tableswitch", Table),
    row!(171, "lookupswitch", Lookup),
    row!(172, "ireturn", None),
    row!(184, "invokestatic", Index),
    row!(196, "wide", Wide),
    row!(198, "ifnull", Branch),
    row!(199, "ifnonnull", Branch),
];

impl Numbered for OpcodeRow {
    ghost use Rattle.ej_tables.specs.Rows.{Entry};

    ghost entry = { λ row. record { name = row.name.now; arity = 0; number = row.number } };

    fn is_named(&self, name: &[u8], arity: u8) -> bool {
        arity == 0 && self.name.as_bytes() == name
    }

    fn number(&self) -> u16 {
        self.number
    }
}

fn table() -> TableOf<OpcodeRow, 60>
    ensures rows { map opcode_of result ≡ opcodes }
    ensures entries { map (λ row. (opcode_of row).entry) result ≡ opcode_entries }
{
    TableOf::new(&OPCODES)
}

/// The opcode of that mnemonic. None where the profile has none.
pub fn opcode(name: &[u8]) -> Option<u16>
    ensures { result ≡ number_of name.now 0 opcode_entries }
{
    table().find(name, 0)
}

/// The row of that opcode. None where the profile does not have it.
pub fn mnemonic(number: u16) -> Option<OpcodeRow>
    ensures { option_map opcode_of result ≡ opcode_numbered number }
{
    match table().by_number(number) {
        Some(row) => Some(*row),
        None => None,
    }
}
