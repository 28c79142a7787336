//! What stands at an index of the constant pool (JVMS SE 7, 4.4). Each answers None where the entry is of another kind, or
//! the pool has none at that index.

ghost use Rattle.std.specs.Prelude.{◌≡◌};
ghost use Rattle.std.specs.Option.{option_map};
ghost use Rattle.jvm_code.specs.Entries as spec;

use crate::class::Constant;

/// The bytes of the text at that index, in modified UTF-8.
pub fn utf8_at(pool: &[Constant], index: u16) -> Option<&[u8]>
    ensures { option_map (λ text. text.now) result ≡ spec.utf8_at pool.now index }
{
    match pool.get(index as usize) {
        Some(Constant::Utf8(bytes)) => Some(bytes.as_slice()),
        _ => None,
    }
}

/// The name of the class at that index.
pub fn class_at(pool: &[Constant], index: u16) -> Option<&[u8]>
    ensures { option_map (λ text. text.now) result ≡ spec.class_at pool.now index }
{
    match pool.get(index as usize) {
        Some(Constant::Class(name)) => utf8_at(pool, *name),
        _ => None,
    }
}

/// The name and the descriptor at that index.
pub fn name_and_type_at(pool: &[Constant], index: u16) -> Option<(&[u8], &[u8])>
    ensures { option_map (λ p. (p.0.now, p.1.now)) result ≡ spec.name_and_type_at pool.now index }
{
    match pool.get(index as usize) {
        Some(Constant::NameAndType(name, descriptor)) => {
            Some((utf8_at(pool, *name)?, utf8_at(pool, *descriptor)?))
        }
        _ => None,
    }
}
