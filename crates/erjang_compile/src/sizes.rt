//! What is too large of a module.

ghost use Rattle.std.specs.Prelude.{IfOk, MatchOption};
ghost use Rattle.std.specs.List.{All};
ghost use Rattle.beam_code.specs.Code.{module_code};
ghost use Rattle.erjang_compile.specs.Accepted.{AreMaps, FunctionFits};
ghost use Rattle.erjang_compile.specs.Answers.{TellsLarge};
ghost use Rattle.erjang_compile.specs.Faults.{IsTooLarge};

use crate::fault::Large;
use crate::literals::first_long;
use beam_code::{Module, SlotMap};
use slot_kinds::{pool_weight, weight};
use std::alloc::{AllocError, Global};

/// The most that a function may weigh.
const MOST_OF_FUNCTION: u64 = 32767;

/// The most that the constants of a module may weigh.
const MOST_OF_POOL: u64 = 65534;

/// What is too large first: of the functions in order, then the constants, then the literals in the order of the file. The
/// maps are those of the functions. The error says that memory was wanting.
pub(crate) fn first_large(
    alloc: Global,
    module: &Module,
    maps: &[SlotMap],
) -> Result<Option<Large>, AllocError>
    requires { AreMaps (module_code «module».now) maps.now }
    ensures { IfOk result (TellsLarge (module_code «module».now)) }
{
    if let Some(large) = first_heavy(alloc, module, maps)? {
        return Ok(Some(large));
    }
    let weight = pool_weight(alloc, module)?;
    if weight > MOST_OF_POOL {
        return Ok(Some(Large::Pool { weight }));
    }
    first_long(alloc, module.functions.as_slice())
}

// The first function that weighs too much.
fn first_heavy(
    alloc: Global,
    module: &Module,
    maps: &[SlotMap],
) -> Result<Option<Large>, AllocError>
    requires { AreMaps (module_code «module».now) maps.now }
    ensures { IfOk result (λ large. MatchOption large (All FunctionFits (module_code «module».now).functions) (IsTooLarge (module_code «module».now))) }
{
    for (func, map) in maps.iter().enumerate() {
        let weight = weight(alloc, module, func, map)?;
        if weight > MOST_OF_FUNCTION {
            return Ok(Some(Large::Function { func, weight }));
        }
    }
    Ok(None)
}
