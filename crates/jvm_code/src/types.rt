//! The types of locals and operands (JVMS SE 7, 4.10.1.2).

ghost use Rattle.std.specs.Prelude.{◌≡◌, codes};
ghost use Rattle.std.specs.Str.{bytes_eq};
ghost use Rattle.jvm_code.specs.Types as spec;

use ej_term::Text;
use sqlite_items::Items;

/// A verification type. A Long takes two places, its own and a Top behind it.
#[derive(Debug, Drop)]
pub enum VType {
    Top,
    Integer,
    Long,
    Null,
    /// A class by its name.
    Class(Text),
}

/// The types at a place of the code.
#[derive(Debug, Drop)]
pub struct Frame {
    pub locals: Items<VType>,
    pub stack: Items<VType>,
}

/// Whether the class of that name is the one above all others.
fn is_object(name: &Text) -> bool
    ensures { result ≡ bytes_eq name.now (codes "java/lang/Object") }
{
    name.as_str() == "java/lang/Object"
}

/// Whether a value of type `a` may stand where one of type `b` is wanted: each type for itself and for Top, null for
/// each class, each class for `java/lang/Object` (JVMS SE 7, 4.10.1.2, with no other subclasses).
pub fn assignable(a: &VType, b: &VType) -> bool
    ensures { result ≡ spec.assignable a.now b.now }
{
    match (a, b) {
        (_, VType::Top) => true,
        (VType::Integer, VType::Integer) => true,
        (VType::Long, VType::Long) => true,
        (VType::Null, VType::Null) => true,
        (VType::Null, VType::Class(_)) => true,
        (VType::Class(one), VType::Class(other)) => is_object(other) || one == other,
        _ => false,
    }
}
