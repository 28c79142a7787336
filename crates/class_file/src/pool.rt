//! Reads the constant pool (JVMS SE 7, 4.4).

ghost use Rattle.std.specs.Prelude.{◌≡◌, ◌+◌, ◌<◌, ◌^◌, true, slice_get, IfOk, IsErr};
ghost use Rattle.std.specs.List.{sum_by};
ghost use Rattle.class_file.specs.Gave.{Gave};
ghost use Rattle.jvm_code.specs.ReadPool as spec;
ghost use Rattle.jvm_code.specs.Reader as reader;

use crate::fault::ClassFault;
use crate::source::Source;
use crate::verdict::{broken_unless, settle};
use jvm_code::{Constant, is_modified_utf8};
use sqlite_items::Items;
use std::alloc::Global;

fn text(alloc: Global, source: &mut Source<'_>) -> Result<Constant, ClassFault>
    ensures read { Gave (λ e. e) (spec.modified_text source.old.at source.old.rest) result source.new }
    ensures size { IfOk result (λ e. source.new.at + 1 ≡ source.old.at + spec.entry_size e) }
{
    let count = source.u2()?;
    let at = source.at();
    let bytes = source.bytes(count as usize)?;
    settle(broken_unless(is_modified_utf8(bytes)), at)?;
    Ok(Constant::Utf8(Items::from_slice(alloc, bytes)?))
}

fn long(left: u16, source: &mut Source<'_>) -> Result<Constant, ClassFault>
    ensures read { Gave (λ e. e) (spec.long left source.old.at source.old.rest) result source.new }
    ensures size { IfOk result (λ e. source.new.at + 1 ≡ source.old.at + spec.entry_size e) }
{
    if left == 0 {
        return Err(ClassFault::NotClass {
            offset: source.at(),
        });
    }
    Ok(Constant::Long(source.s8()?))
}

fn methodref(source: &mut Source<'_>) -> Result<Constant, ClassFault>
    ensures read { Gave (λ e. e) (spec.methodref source.old.at source.old.rest) result source.new }
    ensures size { IfOk result (λ e. source.new.at + 1 ≡ source.old.at + spec.entry_size e) }
{
    let class = source.u2()?;
    Ok(Constant::Methodref(class, source.u2()?))
}

fn name_and_type(source: &mut Source<'_>) -> Result<Constant, ClassFault>
    ensures read { Gave (λ e. e) (spec.name_and_type source.old.at source.old.rest) result source.new }
    ensures size { IfOk result (λ e. source.new.at + 1 ≡ source.old.at + spec.entry_size e) }
{
    let name = source.u2()?;
    Ok(Constant::NameAndType(name, source.u2()?))
}

// A tag that the profile does not have, or that is none.
fn other(tag: u8, source: &Source<'_>) -> Result<Constant, ClassFault>
    ensures fault { Gave (λ e. e) (spec.other tag source.now.at source.now.rest) result source.now }
    ensures none { IsErr result }
{
    let offset = source.at();
    match tag {
        4 | 6 | 9 | 11 | 15 | 16 | 18 => Err(ClassFault::OutsideProfile { offset }),
        _ => Err(ClassFault::NotClass { offset }),
    }
}

fn constant(
    alloc: Global,
    left: u16,
    tag: u8,
    source: &mut Source<'_>,
) -> Result<Constant, ClassFault>
    ensures read { Gave (λ e. e) (spec.constant left tag source.old.at source.old.rest) result source.new }
    ensures size { IfOk result (λ e. source.new.at + 1 ≡ source.old.at + spec.entry_size e) }
{
    match tag {
        1 => text(alloc, source),
        3 => Ok(Constant::Integer(source.s4()?)),
        5 => long(left, source),
        7 => Ok(Constant::Class(source.u2()?)),
        8 => Ok(Constant::Str(source.u2()?)),
        10 => methodref(source),
        12 => name_and_type(source),
        _ => other(tag, source),
    }
}

fn tagged(alloc: Global, left: u16, source: &mut Source<'_>) -> Result<Constant, ClassFault>
    ensures read { Gave (λ e. e) (reader.then_read reader.u1 (spec.constant left) source.old.at source.old.rest) result source.new }
    ensures size { IfOk result (λ e. source.new.at ≡ source.old.at + spec.entry_size e) }
{
    let tag = source.u1()?;
    constant(alloc, left, tag, source)
}

/// An entry, where so many indices are left behind its first.
fn entry(alloc: Global, left: u16, source: &mut Source<'_>) -> Result<Constant, ClassFault>
    ensures read { Gave (λ e. e) (spec.entry left source.old.at source.old.rest) result source.new }
    ensures size { IfOk result (λ e. source.new.at ≡ source.old.at + spec.entry_size e) }
{
    let at = source.at();
    match tagged(alloc, left, source) {
        Ok(entry) => Ok(entry),
        Err(fault) => Err(fault.at(at)),
    }
}

fn is_long(entry: &Constant) -> bool
    ensures { result ≡ spec.is_long entry.now }
{
    matches!(entry, Constant::Long(_))
}

/// What stands at the next index.
fn next_entry(
    alloc: Global,
    due: bool,
    left: u16,
    source: &mut Source<'_>,
) -> Result<Constant, ClassFault>
    ensures read { Gave (λ e. e) (spec.next_entry due left source.old.at source.old.rest) result source.new }
    ensures size { IfOk result (λ e. source.new.at ≡ source.old.at + spec.entry_size e) }
{
    if due {
        return Ok(Constant::Gap);
    }
    entry(alloc, left, source)
}

/// What stands at so many indices, of which the first is a gap.
#[tactic(auto, using(crate::proofs::EntriesRead::at_end, crate::proofs::EntriesRead::step_on, crate::proofs::EntriesRead::stops))]
fn entries(
    alloc: Global,
    count: u16,
    source: &mut Source<'_>,
) -> Result<Items<Constant>, ClassFault>
    ensures read { Gave (λ es. es) (spec.entries true count source.old.at source.old.rest) result source.new }
    ensures size { IfOk result (λ es. source.new.at ≡ source.old.at + sum_by spec.entry_size es) }
{
    let mut pool = Items::new(alloc);
    let mut left = count;
    let mut due = true;
    while left > 0 {
        left -= 1;
        match next_entry(alloc, due, left, source) {
            Ok(next) => {
                due = is_long(&next);
                pool.push(next)?;
            }
            Err(fault) => return Err(fault),
        }
    }
    Ok(pool)
}

/// How many bytes an entry takes.
fn entry_size(entry: &Constant) -> usize
    ensures { result ≡ spec.entry_size entry.now }
{
    match entry {
        Constant::Gap => 0,
        Constant::Utf8(bytes) => bytes.as_slice().len() + 3,
        Constant::Integer(_) | Constant::Methodref(_, _) | Constant::NameAndType(_, _) => 5,
        Constant::Long(_) => 9,
        Constant::Class(_) | Constant::Str(_) => 3,
    }
}

/// Whether the entry at that index, if there is one, is a text.
fn is_utf8(pool: &[Constant], index: u16) -> bool
    ensures { result ≡ spec.is_utf8 (slice_get pool.now index) }
{
    match pool.get(index as usize) {
        Some(Constant::Utf8(_)) => true,
        _ => false,
    }
}

fn is_class(pool: &[Constant], index: u16) -> bool
    ensures { result ≡ spec.is_class (slice_get pool.now index) }
{
    match pool.get(index as usize) {
        Some(Constant::Class(_)) => true,
        _ => false,
    }
}

fn is_name_and_type(pool: &[Constant], index: u16) -> bool
    ensures { result ≡ spec.is_name_and_type (slice_get pool.now index) }
{
    match pool.get(index as usize) {
        Some(Constant::NameAndType(_, _)) => true,
        _ => false,
    }
}

/// Whether the indices in an entry are of entries of the right kinds.
fn refers(pool: &[Constant], entry: &Constant) -> bool
    ensures { result ≡ spec.refers pool.now entry.now }
{
    match entry {
        Constant::Class(name) => is_utf8(pool, *name),
        Constant::Str(text) => is_utf8(pool, *text),
        Constant::Methodref(class, name_and_type) => {
            is_class(pool, *class) && is_name_and_type(pool, *name_and_type)
        }
        Constant::NameAndType(name, descriptor) => {
            is_utf8(pool, *name) && is_utf8(pool, *descriptor)
        }
        _ => true,
    }
}

/// The offset of the first entry whose indices are not, where the first entry is at that offset.
fn first_wrong(pool: &[Constant], at: usize) -> Option<usize>
    requires { at + sum_by spec.entry_size pool.now < 2 ^ 64 }
    ensures { result ≡ spec.first_wrong pool.now at pool.now }
{
    let mut place = at;
    for entry in pool {
        if !refers(pool, entry) {
            return Some(place);
        }
        place += entry_size(entry);
    }
    None
}

/// The pool, behind its count of indices.
pub(crate) fn pool(alloc: Global, source: &mut Source<'_>) -> Result<Items<Constant>, ClassFault>
    ensures { Gave (λ es. es) (spec.constant_pool source.old.at source.old.rest) result source.new }
{
    let start = source.at();
    let count = source.u2()?;
    settle(broken_unless(count != 0), start)?;
    let at = source.at();
    let pool = entries(alloc, count, source)?;
    // That the offset behind the last entry is one tells that each entry's is.
    let _behind = source.at();
    match first_wrong(pool.as_slice(), at) {
        Some(offset) => Err(ClassFault::NotClass { offset }),
        None => Ok(pool),
    }
}
