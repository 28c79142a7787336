//! Reads a source: the module that is compiled, from its text.

ghost use Rattle.erjang_top.specs.Work.{ReadsSource};

use crate::fault::Fault;
use crate::first_path::built::first_unbuilt;
use beam_code::Module;
use erjang_compile::{Source, accept};
use std::alloc::Global;

/// The module whose source the bytes are.
///
/// # Errors
/// The first cause to refuse them, or that memory was wanting.
pub(crate) fn read_source(alloc: Global, bytes: &[u8]) -> Result<Module, Fault>
    ensures { ReadsSource bytes.now result }
{
    let Source { module, maps: _ } = accept(alloc, bytes, true)?;
    match first_unbuilt(&module) {
        Some(place) => Err(Fault::NotBuilt {
            func: place.func,
            index: place.index,
        }),
        None => Ok(module),
    }
}
