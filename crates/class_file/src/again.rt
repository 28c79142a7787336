//! Reads bytes again to see whether they are those of a class. A method is compared as soon as it is read, and nothing of it
//! is kept.

ghost use Rattle.std.specs.Prelude.{◌≡◌, [], map, take, length, IfOk};
ghost use Rattle.std.specs.Bool.{Decides};
ghost use Rattle.class_file.specs.Again.{Heads, Matches, is_headed};
ghost use Rattle.jvm_code.specs.ReadClass as spec;
ghost use Rattle.jvm_code.specs.ReadClass.{ClassOf};

use crate::fault::ClassFault;
use crate::methods::{Names, method, none};
use crate::pool::pool;
use crate::reading::{above, flags, magic, this, version};
use crate::source::Source;
use indexmap::IndexSet;
use jvm_code::{Class, Constant, Method};
use sqlite_items::Items;
use std::alloc::{AllocError, Global};

/// What stands before the methods of a class, and how many these are.
#[derive(Drop)]
struct Head {
    pool: Items<Constant>,
    flags: u16,
    this: u16,
    above: u16,
    count: u16,
}

fn read_head(alloc: Global, source: &mut Source<'_>) -> Result<Head, ClassFault>
    ensures { Heads (spec.class_file source.old.at source.old.rest) result source.new }
{
    magic(source)?;
    version(source)?;
    let pool = pool(alloc, source)?;
    let flags = flags(source)?;
    let this = this(alloc, pool.as_slice(), source)?;
    let above = above(pool.as_slice(), source)?;
    none(source)?;
    none(source)?;
    let count = source.u2()?;
    Ok(Head {
        pool,
        flags,
        this,
        above,
        count,
    })
}

/// Whether the head is that of the class.
fn has_head(class: &Class, head: &Head) -> bool
    ensures { result ≡ is_headed head.now class.now }
{
    head.flags == class.flags
        && head.pool.as_slice() == class.pool.as_slice()
        && head.this == class.this
        && head.above == class.above
}

/// Whether so many methods are these.
fn are_methods(
    alloc: Global,
    pool: &[Constant],
    count: u16,
    wanted: &[Method],
    source: &mut Source<'_>,
) -> Result<bool, ClassFault>
    ensures { Matches wanted.now (spec.methods pool.now [] count source.old.at source.old.rest) result source.new }
{
    if wanted.len() != count as usize {
        return Ok(false);
    }
    let mut names: Names<'_> = IndexSet::new(alloc);
    for other in wanted {
        match method(alloc, pool, &mut names, source) {
            Ok(method) => {
                if method != *other {
                    return Ok(false);
                }
            }
            Err(fault) => return Err(fault),
        }
    }
    Ok(true)
}

/// Whether the class is read.
fn is_class(alloc: Global, class: &Class, source: &mut Source<'_>) -> Result<bool, ClassFault>
    ensures { Matches class.now (spec.class_file source.old.at source.old.rest) result source.new }
{
    let head = read_head(alloc, source)?;
    if !has_head(class, &head) {
        return Ok(false);
    }
    if !are_methods(
        alloc,
        head.pool.as_slice(),
        head.count,
        class.methods.as_slice(),
        source,
    )? {
        return Ok(false);
    }
    none(source)?;
    Ok(true)
}

/// Whether the bytes are those of the class.
pub(crate) fn reads_as(alloc: Global, bytes: &[u8], class: &Class) -> Result<bool, AllocError>
    ensures { IfOk result (λ same. Decides same (ClassOf bytes.now class.now)) }
{
    let mut source = Source::new(bytes);
    match is_class(alloc, class, &mut source) {
        Ok(same) => Ok(same && source.left() == 0),
        Err(ClassFault::NoMemory) => Err(AllocError),
        Err(_) => Ok(false),
    }
}
