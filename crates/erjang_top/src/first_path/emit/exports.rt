//! The functions that a module exports, as a set.

ghost use Rattle.std.specs.Prelude.{◌≡◌, if◌then◌else◌, IfOk};
ghost use Rattle.beam_code.specs.declared.module.Module.{Module};
ghost use Rattle.beam_code.specs.Keys.{key_of, is_among};
ghost use Rattle.erjang_top.specs.first_path.SeenExports.{HasExports};

use beam_code::{Function, Module};
use ej_term::Text;
use indexmap::IndexSet;
use std::alloc::{AllocError, Global};

const ACC_PUBLIC: u16 = 0x0001;

const ACC_PRIVATE: u16 = 0x0002;

const ACC_STATIC: u16 = 0x0008;

/// A name and an arity.
#[derive(Clone, Copy, PartialEq, Eq, Hash)]
pub struct Key<'a> {
    pub name: &'a Text,
    pub arity: u8,
}

/// What a module exports.
pub fn exports_of(alloc: Global, source: &Module) -> Result<IndexSet<Key<'_>>, AllocError>
    ensures { IfOk result (λ exports. HasExports exports.keys source.now) }
{
    let mut exports = IndexSet::new(alloc);
    for export in source.exports.as_slice() {
        exports.insert(Key {
            name: &export.0,
            arity: export.1,
        })?;
    }
    Ok(exports)
}

/// Whether a function is among the exports.
pub fn is_exported(exports: &IndexSet<Key>, function: &Function) -> bool
    ensures { (m : Module) → HasExports exports.now.keys m → result ≡ is_among m.exports (key_of function.now) }
{
    exports.contains(&Key {
        name: &function.name,
        arity: function.arity,
    })
}

/// Public or private, and static.
pub fn method_flags(exported: bool) -> u16
    ensures { result ≡ (if exported then 0x0009 else 0x000A) }
{
    if exported {
        ACC_PUBLIC + ACC_STATIC
    } else {
        ACC_PRIVATE + ACC_STATIC
    }
}
