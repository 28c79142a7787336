//! When two instructions, two methods and two classes are equal.

ghost use Rattle.std.specs.Prelude.{◌≡◌};
ghost use Rattle.jvm_code.specs.Same as same;

use crate::class::{Class, Method, Op, Width};
use sqlite_items::Items;

fn width_number(width: Width) -> u8
    ensures { result ≡ same.width_number width }
{
    match width {
        Width::Short => 0,
        Width::Byte => 1,
        Width::Wide => 2,
    }
}

/// The first opcode of the instruction's family, and its numbers but for those in a switch's table.
fn numbers(op: &Op) -> (u8, i32, i32)
    ensures { result ≡ same.numbers op.now }
{
    match op {
        Op::Null => (1, 0, 0),
        Op::IConst(value) => (3, *value as i32, 0),
        Op::Bipush(value) => (16, *value as i32, 0),
        Op::Sipush(value) => (17, *value as i32, 0),
        Op::Ldc(index) => (18, *index as i32, 0),
        Op::LdcW(index) => (19, *index as i32, 0),
        Op::Ldc2W(index) => (20, *index as i32, 0),
        Op::ILoad(width, local) => (21, width_number(*width) as i32, *local as i32),
        Op::ALoad(width, local) => (25, width_number(*width) as i32, *local as i32),
        Op::IStore(width, local) => (54, width_number(*width) as i32, *local as i32),
        Op::AStore(width, local) => (58, width_number(*width) as i32, *local as i32),
        Op::Pop => (87, 0, 0),
        Op::Dup => (89, 0, 0),
        Op::Swap => (95, 0, 0),
        Op::IAdd => (96, 0, 0),
        Op::ISub => (100, 0, 0),
        Op::If(opcode, offset) => (153, *opcode as i32, *offset as i32),
        Op::IfIcmp(opcode, offset) => (159, *opcode as i32, *offset as i32),
        Op::IfAcmp(opcode, offset) => (165, *opcode as i32, *offset as i32),
        Op::IfNull(null, offset) => (198, *null as i32, *offset as i32),
        Op::Goto(offset) => (167, *offset as i32, 0),
        Op::TableSwitch(default, low, _) => (170, *default, *low),
        Op::LookupSwitch(default, _) => (171, *default, 0),
        Op::IReturn => (172, 0, 0),
        Op::Invoke(index) => (184, *index as i32, 0),
    }
}

/// The table of a `tableswitch`.
fn offsets(op: &Op) -> &[i32]
    ensures { result.now ≡ same.offsets op.now }
{
    match op {
        Op::TableSwitch(_, _, offsets) => offsets.as_slice(),
        _ => &[],
    }
}

/// The table of a `lookupswitch`.
fn pairs(op: &Op) -> &[(i32, i32)]
    ensures { result.now ≡ same.pairs op.now }
{
    match op {
        Op::LookupSwitch(_, pairs) => pairs.as_slice(),
        _ => &[],
    }
}

impl PartialEq for Op {
    ghost use Rattle.std.specs.Cmp.{partial_equiv_from_equiv};
    ghost use Rattle.jvm_code.specs.Same.{same_op};
    ghost use Rattle.jvm_code.specs.SameLaws.{same_op_equiv};

    ghost eq = { same_op };

    ghost laws = { partial_equiv_from_equiv same_op_equiv };

    fn eq(&self, other: &Op) -> bool {
        numbers(self) == numbers(other)
            && offsets(self) == offsets(other)
            && pairs(self) == pairs(other)
    }
}

/// Whether two methods have one `StackMapTable`, or none.
fn same_maps(one: &Option<(u16, Items<u8>)>, other: &Option<(u16, Items<u8>)>) -> bool
    ensures { result ≡ same.same_maps one.now other.now }
{
    match (one, other) {
        (Some((name, content)), Some((other_name, other_content))) => {
            name == other_name && content.as_slice() == other_content.as_slice()
        }
        (None, None) => true,
        _ => false,
    }
}

impl PartialEq for Method {
    ghost use Rattle.std.specs.Cmp.{partial_equiv_from_equiv};
    ghost use Rattle.jvm_code.specs.Same.{same_method};
    ghost use Rattle.jvm_code.specs.SameLaws.{same_method_equiv};

    ghost eq = { same_method };

    ghost laws = { partial_equiv_from_equiv same_method_equiv };

    fn eq(&self, other: &Method) -> bool {
        self.flags == other.flags
            && self.name == other.name
            && self.descriptor == other.descriptor
            && self.code_name == other.code_name
            && self.max_stack == other.max_stack
            && self.max_locals == other.max_locals
            && self.code.as_slice() == other.code.as_slice()
            && same_maps(&self.maps, &other.maps)
    }
}

impl PartialEq for Class {
    ghost use Rattle.std.specs.Cmp.{partial_equiv_from_equiv};
    ghost use Rattle.jvm_code.specs.Same.{same_class};
    ghost use Rattle.jvm_code.specs.SameLaws.{same_class_equiv};

    ghost eq = { same_class };

    ghost laws = { partial_equiv_from_equiv same_class_equiv };

    fn eq(&self, other: &Class) -> bool {
        self.flags == other.flags
            && self.pool.as_slice() == other.pool.as_slice()
            && self.this == other.this
            && self.above == other.above
            && self.methods.as_slice() == other.methods.as_slice()
    }
}
