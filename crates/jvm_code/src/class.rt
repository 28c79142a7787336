//! A class file without its bytes (JVMS SE 7, chapter 4), and the instructions of its methods (chapter 6).

use sqlite_items::Items;

/// An entry of the constant pool (JVMS SE 7, 4.4). The u16s are indices of other entries.
#[derive(Debug, Drop)]
pub enum Constant {
    /// A text in modified UTF-8 (4.4.7).
    Utf8(Items<u8>),
    Integer(i32),
    /// Takes two indices (4.4.5).
    Long(i64),
    /// A class by its name's Utf8.
    Class(u16),
    /// A string by its text's Utf8.
    Str(u16),
    /// A method by its Class and its NameAndType.
    Methodref(u16, u16),
    /// A method's name and descriptor, each a Utf8.
    NameAndType(u16, u16),
    /// No entry: what stands at index 0 and at the second index of a Long.
    Gap,
}

/// How an instruction names a local.
#[derive(Clone, Copy, Debug, PartialEq, Eq)]
pub enum Width {
    /// In the opcode itself, for the locals 0 to 3.
    Short,
    /// By an operand of one byte.
    Byte,
    /// By an operand of two bytes, behind `wide`.
    Wide,
}

/// An instruction (JVMS SE 7, 6.5). Branches are offsets in bytes from the instruction's opcode.
#[derive(Debug, Drop)]
pub enum Op {
    /// `aconst_null`.
    Null,
    /// `iconst_m1` to `iconst_5`.
    IConst(i8),
    Bipush(i8),
    Sipush(i16),
    /// `ldc` of an Integer or a String, by a pool index of one byte.
    Ldc(u8),
    /// `ldc_w` of an Integer or a String.
    LdcW(u16),
    /// `ldc2_w` of a Long.
    Ldc2W(u16),
    ILoad(Width, u16),
    ALoad(Width, u16),
    IStore(Width, u16),
    AStore(Width, u16),
    Pop,
    Dup,
    Swap,
    IAdd,
    ISub,
    /// `ifeq` to `ifle`, by the opcode.
    If(u8, i16),
    /// `if_icmpeq` to `if_icmple`, by the opcode.
    IfIcmp(u8, i16),
    /// `if_acmpeq` or `if_acmpne`, by the opcode.
    IfAcmp(u8, i16),
    /// `ifnull` where true, else `ifnonnull`.
    IfNull(bool, i16),
    Goto(i16),
    /// The default, the low value, and the offsets of the values from the low one on.
    TableSwitch(i32, i32, Items<i32>),
    /// The default, and the offset of each value, in rising order of the values.
    LookupSwitch(i32, Items<(i32, i32)>),
    IReturn,
    /// `invokestatic` of a Methodref.
    Invoke(u16),
}

/// A method with its one attribute, `Code` (JVMS SE 7, 4.6 and 4.7.3). The indices are of the pool.
#[derive(Debug, Drop)]
pub struct Method {
    pub flags: u16,
    pub name: u16,
    pub descriptor: u16,
    /// The index of the Utf8 `Code`.
    pub code_name: u16,
    pub max_stack: u16,
    pub max_locals: u16,
    /// Each instruction with its offset in bytes from the first.
    pub code: Items<(u16, Op)>,
    /// The index of the Utf8 `StackMapTable`, and that attribute's content, where there is one.
    pub maps: Option<(u16, Items<u8>)>,
}

/// A class of version 50.0 (JVMS SE 7, 4.1).
#[derive(Debug, Drop)]
pub struct Class {
    pub flags: u16,
    /// The entries by index.
    pub pool: Items<Constant>,
    /// The index of the class's own Class entry.
    pub this: u16,
    /// The index of the superclass's Class entry.
    pub above: u16,
    pub methods: Items<Method>,
}
