//! Verification types that borrow the names of their classes.

ghost use Rattle.std.specs.Prelude.{◌≡◌, codes};
ghost use Rattle.std.specs.Str.{bytes_eq};
ghost use Rattle.jvm_code.specs.Typing as spec;
ghost use Rattle.jvm_code.specs.Types.{assignable};
ghost use Rattle.class_verifier.specs.Seen.{type_seen, test_of};

use ej_term::Text;
use jvm_code::VType;

/// A verification type, by a name that somebody else owns.
#[derive(Clone, Copy, Debug)]
pub(crate) enum TypeRef<'a> {
    Top,
    Integer,
    Long,
    Null,
    /// A class by its name.
    Class(&'a Text),
}

/// What an instruction asks of a type that it takes.
#[derive(Clone, Copy, Debug)]
pub(crate) enum Wanted {
    /// An integer.
    Integer,
    /// Null or a class.
    Reference,
    /// Neither a Long nor the place behind one.
    Single,
}

impl<'a> TypeRef<'a> {
    /// The same type, by the name that it owns.
    pub(crate) fn of(given: &'a VType) -> TypeRef<'a>
        ensures { type_seen result ≡ given.now }
    {
        match given {
            VType::Top => TypeRef::Top,
            VType::Integer => TypeRef::Integer,
            VType::Long => TypeRef::Long,
            VType::Null => TypeRef::Null,
            VType::Class(name) => TypeRef::Class(name),
        }
    }

    /// Whether it may stand where the other is wanted.
    pub(crate) fn fits(self, wanted: &VType) -> bool
        ensures { result ≡ assignable (type_seen self.entry) wanted.now }
    {
        match (self, wanted) {
            (_, VType::Top) => true,
            (TypeRef::Integer, VType::Integer) => true,
            (TypeRef::Long, VType::Long) => true,
            (TypeRef::Null, VType::Null) => true,
            (TypeRef::Null, VType::Class(_)) => true,
            (TypeRef::Class(one), VType::Class(other)) => is_object(other) || one == other,
            _ => false,
        }
    }

    /// Whether it is what an instruction asks for.
    pub(crate) fn is(self, wanted: Wanted) -> bool
        ensures { result ≡ test_of wanted (type_seen self.entry) }
    {
        match wanted {
            Wanted::Integer => matches!(self, TypeRef::Integer),
            Wanted::Reference => matches!(self, TypeRef::Null | TypeRef::Class(_)),
            Wanted::Single => !matches!(self, TypeRef::Long | TypeRef::Top),
        }
    }

    /// Whether a place behind it is its own too.
    pub(crate) fn is_long(self) -> bool
        ensures { result ≡ spec.is_long (type_seen self.entry) }
    {
        matches!(self, TypeRef::Long)
    }
}

// Whether the class of that name is the one above all others.
fn is_object(name: &Text) -> bool
    ensures { result ≡ bytes_eq name.now (codes "java/lang/Object") }
{
    name.as_str() == "java/lang/Object"
}
