//! Reads a class (JVMS SE 7, 4.1).

ghost use Rattle.std.specs.Prelude.{◌≡◌, IfOk, Ok};
ghost use Rattle.std.specs.Option.{option_map};
ghost use Rattle.class_file.specs.Gave.{Gave, Given};
ghost use Rattle.class_file.specs.Verdicts.{verdict_of};
ghost use Rattle.jvm_code.specs.Entries as entries;
ghost use Rattle.jvm_code.specs.Names as names;
ghost use Rattle.jvm_code.specs.ReadClass as spec;
ghost use Rattle.std.specs.Str.{bytes_eq};

use crate::fault::ClassFault;
use crate::methods::{methods, none};
use crate::pool::pool;
use crate::source::Source;
use crate::verdict::{Verdict, broken_unless, forbidden_unless, settle};
use jvm_code::{Class, Constant, Method, class_at, is_class_name};
use sqlite_items::Items;
use std::alloc::{AllocError, Global};

pub(crate) fn magic(source: &mut Source<'_>) -> Result<u32, ClassFault>
    ensures { Gave (λ n. n) (spec.magic source.old.at source.old.rest) result source.new }
{
    let at = source.at();
    let magic = source.u4()?;
    settle(broken_unless(magic == 0xCAFEBABE), at)?;
    Ok(magic)
}

fn major(source: &mut Source<'_>) -> Result<u16, ClassFault>
    ensures { Gave (λ n. n) (spec.major source.old.at source.old.rest) result source.new }
{
    let at = source.at();
    let major = source.u2()?;
    settle(forbidden_unless(major == 50), at)?;
    Ok(major)
}

/// The minor and the major version.
pub(crate) fn version(source: &mut Source<'_>) -> Result<u16, ClassFault>
    ensures { Gave (λ n. n) (spec.version source.old.at source.old.rest) result source.new }
{
    none(source)?;
    major(source)
}

pub(crate) fn flags(source: &mut Source<'_>) -> Result<u16, ClassFault>
    ensures { Gave (λ n. n) (spec.class_flags source.old.at source.old.rest) result source.new }
{
    let at = source.at();
    let flags = source.u2()?;
    settle(forbidden_unless(flags & 0x0031 == flags), at)?;
    Ok(flags)
}

fn this_verdict(alloc: Global, pool: &[Constant], index: u16) -> Result<Verdict, AllocError>
    ensures { IfOk result (λ verdict. verdict_of verdict ≡ spec.text_that names.is_class_name (entries.class_at pool.now index)) }
{
    match class_at(pool, index) {
        Some(text) => Ok(forbidden_unless(is_class_name(alloc, text)?)),
        None => Ok(Verdict::Broken),
    }
}

/// The index of the class's own entry.
pub(crate) fn this(
    alloc: Global,
    pool: &[Constant],
    source: &mut Source<'_>,
) -> Result<u16, ClassFault>
    ensures { Gave (λ n. n) (spec.this pool.now source.old.at source.old.rest) result source.new }
{
    let at = source.at();
    let this = source.u2()?;
    settle(this_verdict(alloc, pool, this)?, at)?;
    Ok(this)
}

fn above_verdict(pool: &[Constant], index: u16) -> Verdict
    ensures { verdict_of result ≡ spec.text_that spec.is_object (entries.class_at pool.now index) }
{
    match class_at(pool, index) {
        Some(text) => forbidden_unless(text == b"java/lang/Object".as_slice()),
        None => Verdict::Broken,
    }
}

/// The index of the superclass's entry.
pub(crate) fn above(pool: &[Constant], source: &mut Source<'_>) -> Result<u16, ClassFault>
    ensures { Gave (λ n. n) (spec.above pool.now source.old.at source.old.rest) result source.new }
{
    let at = source.at();
    let above = source.u2()?;
    settle(above_verdict(pool, above), at)?;
    Ok(above)
}

/// The methods, between counts of what the profile has none of.
fn members(
    alloc: Global,
    pool: &[Constant],
    source: &mut Source<'_>,
) -> Result<Items<Method>, ClassFault>
    ensures { Gave (λ ms. ms) (spec.members pool.now source.old.at source.old.rest) result source.new }
{
    none(source)?;
    none(source)?;
    let count = source.u2()?;
    let methods = methods(alloc, pool, count, source)?;
    none(source)?;
    Ok(methods)
}

/// The class with this pool.
fn class_with(
    alloc: Global,
    pool: Items<Constant>,
    source: &mut Source<'_>,
) -> Result<Class, ClassFault>
    ensures { Gave (λ c. c) (spec.class_with pool source.old.at source.old.rest) result source.new }
{
    let flags = flags(source)?;
    let this = this(alloc, pool.as_slice(), source)?;
    let above = above(pool.as_slice(), source)?;
    let methods = members(alloc, pool.as_slice(), source)?;
    Ok(Class {
        flags,
        pool,
        this,
        above,
        methods,
    })
}

fn class_file(alloc: Global, source: &mut Source<'_>) -> Result<Class, ClassFault>
    ensures { Gave (λ c. c) (spec.class_file source.old.at source.old.rest) result source.new }
{
    magic(source)?;
    version(source)?;
    let pool = pool(alloc, source)?;
    class_with(alloc, pool, source)
}

/// The class, where no byte follows it.
#[tactic(auto, using(crate::proofs::ClassRead::trailing, crate::proofs::ClassRead::whole))]
fn ended(class: Class, source: &Source<'_>) -> Result<Class, ClassFault>
    ensures { Given (λ c. c) (spec.ended (Ok (class, source.now.at, source.now.rest))) result }
{
    if source.left() > 0 {
        return Err(ClassFault::NotClass {
            offset: source.at(),
        });
    }
    Ok(class)
}

#[tactic(auto, using(crate::proofs::ClassRead::read, crate::proofs::ClassRead::fails))]
fn whole(alloc: Global, source: &mut Source<'_>) -> Result<Class, ClassFault>
    ensures { Given (λ c. c) (spec.ended (spec.class_file source.old.at source.old.rest)) result }
{
    match class_file(alloc, source) {
        Ok(class) => ended(class, source),
        Err(fault) => Err(fault),
    }
}

/// The class of the bytes. Else the first field that fails, in the order of the bytes: where the bytes end or the format is
/// broken they are no class, and where the profile forbids what stands there they are outside it.
pub fn parse(alloc: Global, bytes: &[u8]) -> Result<Class, ClassFault>
    ensures read { Given (λ c. c) (spec.read_class bytes.now) result }
    ensures of { IfOk result (λ class. spec.ClassOf bytes.now class) }
{
    let mut source = Source::new(bytes);
    whole(alloc, &mut source)
}
