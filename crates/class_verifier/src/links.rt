//! What the calls of a class name: runtime methods, and methods of the class itself.

ghost use Rattle.std.specs.Prelude.{◌≡◌, IfOk, OnOk, ℕ, List, ◌||◌, is_some, map, slice_get, codes};
ghost use Rattle.std.specs.List.{list_any};
ghost use Rattle.std.specs.Option.{option_map, option_and_then};
ghost use Rattle.std.specs.Str.{bytes_eq, chars};
ghost use Rattle.jvm_code.specs.Entries as entries;
ghost use Rattle.jvm_code.specs.Instruction as spec;
ghost use Rattle.jvm_code.specs.Instruction.{Runtime};
ghost use Rattle.jvm_code.specs.Runtime.{S, number_by};
ghost use Rattle.jvm_code.specs.RuntimeRows.{method_of, type_of};
ghost use Rattle.jvm_code.specs.Signature.{own};
ghost use Rattle.jvm_code.specs.Typing.{signature_of};
ghost use Rattle.jvm_code.specs.declared.types.VType.TheVariants as v;
ghost use Rattle.jvm_code.specs.declared.class.Class.{Class as ClassSeen};
ghost use Rattle.class_verifier.specs.Links as links;
ghost use Rattle.class_verifier.specs.Links.{HasNames, named_seen, Are, called_in, signature_seen};

use ej_term::Text;
use indexmap::IndexSet;
use jvm_code::{
    Class, Constant, FieldType, Method, RuntimeRow, VType, class_at, name_and_type_at, runtime,
    runtime_row, utf8_at,
};
use sqlite_items::Items;
use std::alloc::{AllocError, Global};

/// What a method takes, in order, and what it gives, if anything.
#[derive(Debug, Drop)]
pub(crate) struct Signature {
    pub(crate) takes: Items<VType>,
    pub(crate) gives: Option<VType>,
}

/// The type of a class of that name.
fn class_type(alloc: Global, name: &str) -> Result<VType, AllocError>
    ensures { IfOk result (λ t. t ≡ v.Class (chars name.now)) }
{
    Ok(VType::Class(Text::make(alloc, name)?))
}

/// The type of strings.
fn string_type(alloc: Global) -> Result<VType, AllocError>
    ensures { IfOk result (λ t. t ≡ S) }
{
    class_type(alloc, "java/lang/String")
}

/// The verification type of what a runtime method takes or gives.
#[tactic(auto, using(crate::proofs::ClassNames::process, crate::proofs::ClassNames::term, crate::proofs::ClassNames::trace))]
fn vtype(alloc: Global, field: FieldType) -> Result<VType, AllocError>
    ensures { IfOk result (λ t. t ≡ type_of field) }
{
    match field {
        FieldType::Int => Ok(VType::Integer),
        FieldType::Long => Ok(VType::Long),
        FieldType::Proc => class_type(alloc, "erl/Proc"),
        FieldType::Term => class_type(alloc, "erl/Term"),
        FieldType::Trace => class_type(alloc, "erl/Trace"),
        FieldType::Str => string_type(alloc),
    }
}

fn vtypes(alloc: Global, fields: &[FieldType]) -> Result<Items<VType>, AllocError>
    ensures { IfOk result (λ types. types ≡ map type_of fields.now) }
{
    let mut types = Items::new(alloc);
    for field in fields {
        types.push(vtype(alloc, *field)?)?;
    }
    Ok(types)
}

fn given(alloc: Global, field: Option<FieldType>) -> Result<Option<VType>, AllocError>
    ensures { IfOk result (λ t. t ≡ option_map type_of field) }
{
    match field {
        None => Ok(None),
        Some(field) => Ok(Some(vtype(alloc, field)?)),
    }
}

fn signature_in(alloc: Global, row: RuntimeRow) -> Result<Signature, AllocError>
    ensures { IfOk result (λ s. signature_seen s ≡ (method_of row).signature) }
{
    Ok(Signature {
        takes: vtypes(alloc, row.takes)?,
        gives: given(alloc, row.gives)?,
    })
}

/// The signature of every method of the profile.
fn own_signature(alloc: Global) -> Result<Signature, AllocError>
    ensures { IfOk result (λ s. signature_seen s ≡ own) }
{
    Ok(Signature {
        takes: vtypes(alloc, &[FieldType::Proc, FieldType::Int])?,
        gives: Some(VType::Integer),
    })
}

/// A method, by the names of its class and itself, and its descriptor.
#[derive(Clone, Copy, Debug)]
struct Named<'a> {
    class: &'a [u8],
    name: &'a [u8],
    descriptor: &'a [u8],
}

/// The method that an entry of the pool names. None where it is no Methodref, or names none.
fn method_in<'a>(pool: &'a [Constant], entry: &Constant) -> Option<Named<'a>>
    ensures { option_map named_seen result ≡ spec.method_in pool.now entry.now }
{
    match entry {
        Constant::Methodref(class, described) => {
            let class = class_at(pool, *class)?;
            let (name, descriptor) = name_and_type_at(pool, *described)?;
            Some(Named {
                class,
                name,
                descriptor,
            })
        }
        _ => None,
    }
}

fn runtime_signature(alloc: Global, method: Named<'_>) -> Result<Option<Signature>, AllocError>
    ensures { IfOk result (λ s. option_map signature_seen s ≡ option_and_then signature_of (option_map Runtime (number_by method.entry.name.now method.entry.descriptor.now))) }
{
    match runtime(method.name, method.descriptor) {
        None => Ok(None),
        Some(number) => row_signature(alloc, runtime_row(number)),
    }
}

fn row_signature(alloc: Global, row: Option<RuntimeRow>) -> Result<Option<Signature>, AllocError>
    ensures { IfOk result (λ s. option_map signature_seen s ≡ option_map (λ m. m.signature) (option_map method_of row)) }
{
    match row {
        None => Ok(None),
        Some(row) => Ok(Some(signature_in(alloc, row)?)),
    }
}

type Names<'a> = IndexSet<&'a [u8]>;

fn has_name(names: &Names<'_>, name: &[u8]) -> bool
    ensures { result ≡ list_any (bytes_eq name.now) (map (λ n. n.now) names.now.keys) }
{
    names.contains(&name)
}

fn add_name<'a>(names: &mut Names<'a>, name: &'a [u8]) -> Result<(), AllocError>
    ensures { OnOk result ((other : List ℕ) → list_any (bytes_eq other) (map (λ n. n.now) names.new.keys) ≡ (list_any (bytes_eq other) (map (λ n. n.now) names.old.keys) || bytes_eq other name.now)) }
{
    names.insert(name)?;
    Ok(())
}

fn add_method<'a>(
    names: &mut Names<'a>,
    pool: &'a [Constant],
    method: &Method,
) -> Result<(), AllocError>
    ensures { OnOk result ((other : List ℕ) → list_any (bytes_eq other) (map (λ n. n.now) names.new.keys) ≡ (list_any (bytes_eq other) (map (λ n. n.now) names.old.keys) || spec.spells pool.now method.now.name other)) }
{
    if let Some(name) = utf8_at(pool, method.name) {
        add_name(names, name)?;
    }
    Ok(())
}

/// The names of methods.
fn method_names<'a>(
    alloc: Global,
    pool: &'a [Constant],
    methods: &[Method],
) -> Result<Names<'a>, AllocError>
    ensures { IfOk result (λ names. (name : List ℕ) → list_any (bytes_eq name) (map (λ n. n.now) names.keys) ≡ list_any (λ m. spec.spells pool.now m.name name) methods.now) }
{
    let mut names: Names<'a> = IndexSet::new(alloc);
    for method in methods {
        add_method(&mut names, pool, method)?;
    }
    Ok(names)
}

fn is_named(class: &Class, name: &[u8]) -> bool
    ensures { result ≡ spec.is_named class.now name.now }
{
    match class_at(class.pool.as_slice(), class.this) {
        Some(own) => own == name,
        None => false,
    }
}

/// Whether the method is one of the class.
fn is_own(class: &Class, names: &Names<'_>, method: Named<'_>) -> bool
    requires { HasNames class.now names.now.keys }
    ensures { result ≡ spec.is_own class.now (named_seen method.entry) }
{
    is_named(class, method.class)
        && method.descriptor == b"(Lerl/Proc;I)I".as_slice()
        && has_name(names, method.name)
}

/// The signature of a method that is called. None where it is neither a runtime method nor one of the class.
fn called(
    alloc: Global,
    class: &Class,
    names: &Names<'_>,
    method: Named<'_>,
) -> Result<Option<Signature>, AllocError>
    requires { HasNames class.now names.now.keys }
    ensures { IfOk result (λ s. option_map signature_seen s ≡ option_and_then signature_of (spec.callee class.now (named_seen method.entry))) }
{
    if method.class == b"erl/Rt".as_slice() {
        return runtime_signature(alloc, method);
    }
    if is_own(class, names, method) {
        return Ok(Some(own_signature(alloc)?));
    }
    Ok(None)
}

/// The signature of what an entry of the class's pool says that is called, if there is one.
fn called_in(
    alloc: Global,
    class: &Class,
    names: &Names<'_>,
    entry: &Constant,
) -> Result<Option<Signature>, AllocError>
    requires { HasNames class.now names.now.keys }
    ensures { IfOk result (λ s. option_map signature_seen s ≡ option_and_then signature_of (links.called_in class.now entry.now)) }
{
    match method_in(class.pool.as_slice(), entry) {
        None => Ok(None),
        Some(method) => called(alloc, class, names, method),
    }
}

/// What the calls of a class name.
#[derive(Debug, Drop)]
pub(crate) struct Links {
    // By the indices of the pool.
    signatures: Vec<Option<Signature>>,
}

impl Links {
    /// What the calls of the class name.
    pub(crate) fn of(alloc: Global, class: &Class) -> Result<Links, AllocError>
        ensures { IfOk result (λ l. Are class.now l.signatures.items) }
    {
        let names = method_names(alloc, class.pool.as_slice(), class.methods.as_slice())?;
        let mut signatures = Vec::new(alloc);
        for entry in class.pool.as_slice() {
            signatures.push(called_in(alloc, class, &names, entry)?)?;
        }
        Ok(Links { signatures })
    }

    // What was found for the entry at that index.
    fn found(&self, index: u16) -> Option<&Signature>
        ensures { option_map (λ s. s.now) result ≡ links.joined (slice_get self.now.signatures.items index) }
    {
        match self.signatures.get(index as usize) {
            Some(Some(signature)) => Some(signature),
            _ => None,
        }
    }

    /// The signature of the method that the Methodref at that index names. None where it is neither a runtime method nor
    /// one of the class.
    pub(crate) fn signature(&self, index: u16) -> Option<&Signature>
        ensures signature { (class : ClassSeen) → Are class self.now.signatures.items → option_map (λ s. signature_seen s.now) result ≡ option_and_then signature_of (spec.callee_at class index) }
        ensures linked { (class : ClassSeen) → Are class self.now.signatures.items → is_some result ≡ is_some (spec.callee_at class index) }
    {
        self.found(index)
    }
}
