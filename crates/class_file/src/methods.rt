//! Reads methods with their attribute `Code` (JVMS SE 7, 4.6 and 4.7.3).

ghost use Rattle.std.specs.Prelude.{◌≡◌, [], ◌∷◌, ◌++◌, map, false, IfOk, OnOk};
ghost use Rattle.std.specs.List.{list_any};
ghost use Rattle.std.specs.Option.{option_map};
ghost use Rattle.std.specs.Str.{bytes_eq};
ghost use Rattle.class_file.specs.Contents.{maps_of, content_of, attribute_of};
ghost use Rattle.class_file.specs.Gave.{Gave};
ghost use Rattle.class_file.specs.Verdicts.{verdict_of};
ghost use Rattle.jvm_code.specs.Entries as entries;
ghost use Rattle.jvm_code.specs.Names as names_spec;
ghost use Rattle.jvm_code.specs.ReadClass as spec;
ghost use Rattle.jvm_code.specs.Reader as reader;

use crate::fault::ClassFault;
use crate::instructions::code;
use crate::source::Source;
use crate::verdict::{Verdict, broken_unless, forbidden_unless, settle};
use indexmap::IndexSet;
use jvm_code::{Constant, Method, Op, is_method_name, utf8_at};
use sqlite_items::Items;
use std::alloc::{AllocError, Global};

/// The content of an attribute `Code`.
#[derive(Drop)]
struct CodeContent {
    max_stack: u16,
    max_locals: u16,
    code: Items<(u16, Op)>,
    maps: Option<(u16, Items<u8>)>,
}

/// Whether the text at that index is this one.
fn is_text(pool: &[Constant], index: u16, wanted: &[u8]) -> bool
    ensures { result ≡ spec.is_text wanted.now (entries.utf8_at pool.now index) }
{
    match utf8_at(pool, index) {
        Some(text) => text == wanted,
        None => false,
    }
}

/// A count of what the profile has none of.
pub(crate) fn none(source: &mut Source<'_>) -> Result<u16, ClassFault>
    ensures { Gave (λ n. n) (spec.none source.old.at source.old.rest) result source.new }
{
    let at = source.at();
    let count = source.u2()?;
    settle(forbidden_unless(count == 0), at)?;
    Ok(count)
}

fn code_length(source: &mut Source<'_>) -> Result<u16, ClassFault>
    ensures { Gave (λ n. n) (spec.code_length source.old.at source.old.rest) result source.new }
{
    let at = source.at();
    let length = source.u4()?;
    if length == 0 || length > 65535 {
        return Err(ClassFault::NotClass { offset: at });
    }
    Ok(length as u16)
}

/// The instructions, behind their length in bytes.
fn instructions(
    alloc: Global,
    pool: &[Constant],
    source: &mut Source<'_>,
) -> Result<Items<(u16, Op)>, ClassFault>
    ensures { Gave (λ ops. ops) (spec.instructions pool.now source.old.at source.old.rest) result source.new }
{
    let length = code_length(source)?;
    code(alloc, pool, length, source)
}

fn map_name(pool: &[Constant], source: &mut Source<'_>) -> Result<u16, ClassFault>
    ensures { Gave (λ n. n) (spec.map_name pool.now source.old.at source.old.rest) result source.new }
{
    let at = source.at();
    let name = source.u2()?;
    settle(forbidden_unless(is_text(pool, name, b"StackMapTable")), at)?;
    Ok(name)
}

/// A `StackMapTable`.
fn map(
    alloc: Global,
    pool: &[Constant],
    source: &mut Source<'_>,
) -> Result<Option<(u16, Items<u8>)>, ClassFault>
    ensures { Gave maps_of (spec.map pool.now source.old.at source.old.rest) result source.new }
{
    let name = map_name(pool, source)?;
    let count = source.u4()?;
    let content = source.bytes(count as usize)?;
    Ok(Some((name, Items::from_slice(alloc, content)?)))
}

fn map_count(source: &mut Source<'_>) -> Result<u16, ClassFault>
    ensures { Gave (λ n. n) (spec.map_count source.old.at source.old.rest) result source.new }
{
    let at = source.at();
    let count = source.u2()?;
    settle(forbidden_unless(count <= 1), at)?;
    Ok(count)
}

/// At most one attribute of the code.
fn maps(
    alloc: Global,
    pool: &[Constant],
    source: &mut Source<'_>,
) -> Result<Option<(u16, Items<u8>)>, ClassFault>
    ensures { Gave maps_of (spec.maps pool.now source.old.at source.old.rest) result source.new }
{
    let count = map_count(source)?;
    if count == 0 {
        return Ok(None);
    }
    map(alloc, pool, source)
}

/// The content of the attribute, with no exception table.
fn content(
    alloc: Global,
    pool: &[Constant],
    source: &mut Source<'_>,
) -> Result<CodeContent, ClassFault>
    ensures { Gave content_of (spec.content pool.now source.old.at source.old.rest) result source.new }
{
    let max_stack = source.u2()?;
    let max_locals = source.u2()?;
    let code = instructions(alloc, pool, source)?;
    none(source)?;
    let maps = maps(alloc, pool, source)?;
    Ok(CodeContent {
        max_stack,
        max_locals,
        code,
        maps,
    })
}

/// The content behind its length, which is looked at behind it.
fn sized_content(
    alloc: Global,
    pool: &[Constant],
    source: &mut Source<'_>,
) -> Result<CodeContent, ClassFault>
    ensures { Gave content_of (reader.sized (spec.content pool.now) source.old.at source.old.rest) result source.new }
{
    let at = source.at();
    let length = source.u4()?;
    let from = source.at();
    let content = content(alloc, pool, source)?;
    let to = source.at();
    if to as u128 != from as u128 + length as u128 {
        return Err(ClassFault::NotClass { offset: at });
    }
    Ok(content)
}

fn attribute_count(source: &mut Source<'_>) -> Result<u16, ClassFault>
    ensures { Gave (λ n. n) (spec.attribute_count source.old.at source.old.rest) result source.new }
{
    let at = source.at();
    let count = source.u2()?;
    settle(forbidden_unless(count == 1), at)?;
    Ok(count)
}

fn text_verdict(pool: &[Constant], index: u16, wanted: &[u8]) -> Verdict
    ensures { verdict_of result ≡ spec.text_that (λ text. bytes_eq text wanted.now) (entries.utf8_at pool.now index) }
{
    match utf8_at(pool, index) {
        Some(text) => forbidden_unless(text == wanted),
        None => Verdict::Broken,
    }
}

fn code_name(pool: &[Constant], source: &mut Source<'_>) -> Result<u16, ClassFault>
    ensures { Gave (λ n. n) (spec.code_name pool.now source.old.at source.old.rest) result source.new }
{
    let at = source.at();
    let name = source.u2()?;
    settle(text_verdict(pool, name, b"Code"), at)?;
    Ok(name)
}

/// The one attribute of a method, by its name's index.
fn attribute(
    alloc: Global,
    pool: &[Constant],
    source: &mut Source<'_>,
) -> Result<(u16, CodeContent), ClassFault>
    ensures { Gave attribute_of (spec.attribute pool.now source.old.at source.old.rest) result source.new }
{
    attribute_count(source)?;
    let name = code_name(pool, source)?;
    Ok((name, sized_content(alloc, pool, source)?))
}

fn flags(source: &mut Source<'_>) -> Result<u16, ClassFault>
    ensures { Gave (λ n. n) (spec.method_flags source.old.at source.old.rest) result source.new }
{
    let at = source.at();
    let flags = source.u2()?;
    settle(forbidden_unless(flags == 0x0009 || flags == 0x000A), at)?;
    Ok(flags)
}

fn name_verdict(
    alloc: Global,
    pool: &[Constant],
    flags: u16,
    index: u16,
) -> Result<Verdict, AllocError>
    ensures { IfOk result (λ verdict. verdict_of verdict ≡ spec.text_that (names_spec.is_method_name flags) (entries.utf8_at pool.now index)) }
{
    match utf8_at(pool, index) {
        Some(text) => Ok(forbidden_unless(is_method_name(alloc, flags, text)?)),
        None => Ok(Verdict::Broken),
    }
}

fn name(
    alloc: Global,
    pool: &[Constant],
    flags: u16,
    source: &mut Source<'_>,
) -> Result<u16, ClassFault>
    ensures { Gave (λ n. n) (spec.method_name pool.now flags source.old.at source.old.rest) result source.new }
{
    let at = source.at();
    let name = source.u2()?;
    settle(name_verdict(alloc, pool, flags, name)?, at)?;
    Ok(name)
}

fn descriptor_verdict(pool: &[Constant], taken: bool, index: u16) -> Verdict
    ensures verdict { verdict_of result ≡ spec.descriptor_that taken (entries.utf8_at pool.now index) }
    ensures new { verdict_of result ≡ reader.Fine → taken ≡ false }
{
    match utf8_at(pool, index) {
        Some(text) => {
            if text == b"(Lerl/Proc;I)I".as_slice() {
                return broken_unless(!taken);
            }
            Verdict::Forbidden
        }
        None => Verdict::Broken,
    }
}

fn descriptor(pool: &[Constant], taken: bool, source: &mut Source<'_>) -> Result<u16, ClassFault>
    ensures read { Gave (λ n. n) (spec.descriptor pool.now taken source.old.at source.old.rest) result source.new }
    ensures new { OnOk result (taken ≡ false) }
{
    let at = source.at();
    let descriptor = source.u2()?;
    settle(descriptor_verdict(pool, taken, descriptor), at)?;
    Ok(descriptor)
}

/// The names of methods.
pub(crate) type Names<'a> = IndexSet<&'a [u8]>;

/// The name of a method.
fn name_of(pool: &[Constant], index: u16) -> &[u8]
    ensures { result.now ≡ spec.name_of pool.now index }
{
    match utf8_at(pool, index) {
        Some(text) => text,
        None => &[],
    }
}

fn is_taken(names: &Names<'_>, name: &[u8]) -> bool
    ensures { result ≡ list_any (bytes_eq name.now) (map (λ k. k.now) names.now.keys) }
{
    names.contains(&name)
}

/// Puts a name that none has behind the others.
fn add_name<'a>(names: &mut Names<'a>, name: &'a [u8]) -> Result<(), AllocError>
    requires { list_any (bytes_eq name.now) (map (λ k. k.now) names.old.keys) ≡ false }
    ensures { OnOk result (map (λ k. k.now) names.new.keys ≡ map (λ k. k.now) names.old.keys ++ name.now ∷ []) }
{
    names.insert(name)?;
    Ok(())
}

/// The method of these flags and indices, with its attribute.
fn method_of(
    alloc: Global,
    pool: &[Constant],
    flags: u16,
    name: u16,
    descriptor: u16,
    source: &mut Source<'_>,
) -> Result<Method, ClassFault>
    ensures read { Gave (λ m. m) (reader.read_as (spec.method_of flags name descriptor) (spec.attribute pool.now) source.old.at source.old.rest) result source.new }
    ensures named { IfOk result (λ m. m.name ≡ name) }
{
    let (code_name, content) = attribute(alloc, pool, source)?;
    Ok(Method {
        flags,
        name,
        descriptor,
        code_name,
        max_stack: content.max_stack,
        max_locals: content.max_locals,
        code: content.code,
        maps: content.maps,
    })
}

/// A method behind those of these names, to which its own is put.
pub(crate) fn method<'a>(
    alloc: Global,
    pool: &'a [Constant],
    names: &mut Names<'a>,
    source: &mut Source<'_>,
) -> Result<Method, ClassFault>
    ensures read { Gave (λ m. m) (spec.method pool.now (map (λ k. k.now) names.old.keys) source.old.at source.old.rest) result source.new }
    ensures named { IfOk result (λ m. map (λ k. k.now) names.new.keys ≡ map (λ k. k.now) names.old.keys ++ spec.name_of pool.now m.name ∷ []) }
{
    let flags = flags(source)?;
    let name = name(alloc, pool, flags, source)?;
    let text = name_of(pool, name);
    let taken = is_taken(names, text);
    let descriptor = descriptor(pool, taken, source)?;
    add_name(names, text)?;
    method_of(alloc, pool, flags, name, descriptor, source)
}

/// So many methods.
#[tactic(auto, using(crate::proofs::MethodsRead::at_end, crate::proofs::MethodsRead::step_on, crate::proofs::MethodsRead::stops))]
pub(crate) fn methods(
    alloc: Global,
    pool: &[Constant],
    count: u16,
    source: &mut Source<'_>,
) -> Result<Items<Method>, ClassFault>
    ensures { Gave (λ ms. ms) (spec.methods pool.now [] count source.old.at source.old.rest) result source.new }
{
    let mut names: Names<'_> = IndexSet::new(alloc);
    let mut methods = Items::new(alloc);
    let mut left = count;
    while left > 0 {
        left -= 1;
        match method(alloc, pool, &mut names, source) {
            Ok(method) => {
                methods.push(method)?;
            }
            Err(fault) => return Err(fault),
        }
    }
    Ok(methods)
}
