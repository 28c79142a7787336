//! Verification types (JVMS SE 7, 4.7.4): read, and copied.

ghost use Rattle.std.specs.Prelude.{◌≡◌, IfOk};
ghost use Rattle.std.specs.Option.{option_map};
ghost use Rattle.jvm_code.specs.Entries as entries;
ghost use Rattle.stack_maps.specs.Gave.{Gave, Given};
ghost use Rattle.stack_maps.specs.Read as spec;

use crate::fault::MapFault;
use crate::source::Source;
use crate::texts::text_of;
use jvm_code::{Constant, VType, class_at};
use sqlite_items::Items;
use std::alloc::{AllocError, Global};

/// The type of the class at that index.
fn class_type(alloc: Global, pool: &[Constant], index: u16) -> Result<VType, MapFault>
    ensures { Given (spec.class_type pool.now index) result }
{
    let Some(name) = class_at(pool, index) else {
        return Err(MapFault::BadMap);
    };
    match text_of(alloc, name)? {
        Some(text) => Ok(VType::Class(text)),
        None => Err(MapFault::BadMap),
    }
}

fn object(alloc: Global, pool: &[Constant], source: &mut Source<'_>) -> Result<VType, MapFault>
    ensures { Gave (λ t. t) (spec.object pool.now source.old) result source.new }
{
    let index = source.u2()?;
    class_type(alloc, pool, index)
}

/// A type.
fn vtype(alloc: Global, pool: &[Constant], source: &mut Source<'_>) -> Result<VType, MapFault>
    ensures { Gave (λ t. t) (spec.vtype pool.now source.old) result source.new }
{
    match source.u1()? {
        0 => Ok(VType::Top),
        1 => Ok(VType::Integer),
        4 => Ok(VType::Long),
        5 => Ok(VType::Null),
        7 => object(alloc, pool, source),
        _ => Err(MapFault::BadMap),
    }
}

/// So many types.
#[tactic(auto, using(crate::proofs::TimesRead::at_end, crate::proofs::TimesRead::step_on, crate::proofs::TimesRead::stops))]
pub(crate) fn vtypes(
    alloc: Global,
    pool: &[Constant],
    count: u16,
    source: &mut Source<'_>,
) -> Result<Items<VType>, MapFault>
    ensures { Gave (λ ts. ts) (spec.vtypes pool.now count source.old) result source.new }
{
    let mut types = Items::new(alloc);
    let mut left = count;
    while left > 0 {
        left -= 1;
        match vtype(alloc, pool, source) {
            Ok(next) => {
                types.push(next)?;
            }
            Err(fault) => return Err(fault),
        }
    }
    Ok(types)
}

/// A count of types, and the types.
pub(crate) fn counted(
    alloc: Global,
    pool: &[Constant],
    source: &mut Source<'_>,
) -> Result<Items<VType>, MapFault>
    ensures { Gave (λ ts. ts) (spec.counted pool.now source.old) result source.new }
{
    let count = source.u2()?;
    vtypes(alloc, pool, count, source)
}

fn copy(vtype: &VType) -> Result<VType, AllocError>
    ensures { IfOk result (λ t. t ≡ vtype.now) }
{
    match vtype {
        VType::Top => Ok(VType::Top),
        VType::Integer => Ok(VType::Integer),
        VType::Long => Ok(VType::Long),
        VType::Null => Ok(VType::Null),
        VType::Class(name) => Ok(VType::Class(name.clone()?)),
    }
}

/// The same types.
pub(crate) fn copies(alloc: Global, types: &[VType]) -> Result<Items<VType>, AllocError>
    ensures { IfOk result (λ ts. ts ≡ types.now) }
{
    let mut copied = Items::new(alloc);
    for vtype in types {
        copied.push(copy(vtype)?)?;
    }
    Ok(copied)
}
