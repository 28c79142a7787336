//! When two entries of the constant pool are equal, and what of one is hashed.

ghost use Rattle.std.specs.Prelude.{◌≡◌};
ghost use Rattle.std.specs.Str.{bytes_eq};
ghost use Rattle.jvm_code.specs.ConstantKey.{signed};

use crate::class::Constant;
use std::hash::{Hash, Hasher};

#[tactic(auto, using(crate::proofs::SignedEq::same_signed))]
fn same_integer(one: i32, other: i32) -> bool
    ensures { result ≡ bytes_eq (signed one) (signed other) }
{
    one == other
}

#[tactic(auto, using(crate::proofs::SignedEq::same_signed))]
fn same_long(one: i64, other: i64) -> bool
    ensures { result ≡ bytes_eq (signed one) (signed other) }
{
    one == other
}

impl PartialEq for Constant {
    ghost use Rattle.std.specs.Cmp.{partial_equiv_from_equiv};
    ghost use Rattle.jvm_code.specs.ConstantKey.{same_constant, same_constant_equiv};

    ghost eq = { same_constant };

    ghost laws = { partial_equiv_from_equiv same_constant_equiv };

    fn eq(&self, other: &Constant) -> bool {
        match (self, other) {
            (Constant::Utf8(a), Constant::Utf8(b)) => a.as_slice() == b.as_slice(),
            (Constant::Integer(a), Constant::Integer(b)) => same_integer(*a, *b),
            (Constant::Long(a), Constant::Long(b)) => same_long(*a, *b),
            (Constant::Class(a), Constant::Class(b)) => a == b,
            (Constant::Str(a), Constant::Str(b)) => a == b,
            (Constant::Methodref(a, m), Constant::Methodref(b, n)) => a == b && m == n,
            (Constant::NameAndType(a, m), Constant::NameAndType(b, n)) => a == b && m == n,
            (Constant::Gap, Constant::Gap) => true,
            _ => false,
        }
    }
}

impl Eq for Constant {
    ghost use Rattle.jvm_code.specs.ConstantKey.{same_constant_equiv};

    ghost laws = { same_constant_equiv };
}

impl Hash for Constant {
    ghost use Rattle.jvm_code.specs.ConstantKey.{fed_constant};
    ghost use Rattle.jvm_code.specs.ConstantLaws.{fed_alike};

    ghost hash_input = { fed_constant };

    ghost respects_eq = { fed_alike };

    fn hash<H: Hasher>(&self, state: &mut H) {
        match self {
            Constant::Utf8(bytes) => {
                state.write_u8(1);
                state.write(bytes.as_slice());
            }
            Constant::Integer(value) => {
                state.write_u8(3);
                state.write_i32(*value);
            }
            Constant::Long(value) => {
                state.write_u8(5);
                state.write_i64(*value);
            }
            Constant::Class(name) => {
                state.write_u8(7);
                state.write_u16(*name);
            }
            Constant::Str(text) => {
                state.write_u8(8);
                state.write_u16(*text);
            }
            Constant::Methodref(class, name_and_type) => {
                state.write_u8(10);
                state.write_u16(*class);
                state.write_u16(*name_and_type);
            }
            Constant::NameAndType(name, descriptor) => {
                state.write_u8(12);
                state.write_u16(*name);
                state.write_u16(*descriptor);
            }
            Constant::Gap => state.write_u8(0),
        }
    }
}
