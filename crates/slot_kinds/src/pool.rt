//! What a module's constants weigh.

ghost use Rattle.std.specs.Prelude.{IfOk};
ghost use Rattle.beam_code.specs.Code.{module_code};
ghost use Rattle.beam_code.specs.Pool.{PoolWeight};

use crate::named::{external_count, number_count};
use crate::values::value_count;
use crate::weigh::line;
use beam_code::Module;
use std::alloc::{AllocError, Global};

/// The weight of a module's constants: an upper bound on the entries of the constant pool of its class. It is 1,024, 6 for
/// each function, and 4 for each different value, each different size or place, and each different external function that
/// its code names; it stays at 2^64-1. The error says that memory was wanting.
pub fn pool_weight(alloc: Global, module: &Module) -> Result<u64, AllocError>
    ensures { IfOk result (PoolWeight (module_code «module».now)) }
{
    let functions = module.functions.as_slice();
    let values = value_count(alloc, functions)?;
    let numbers = number_count(alloc, functions)?;
    let externals = external_count(alloc, functions)?;
    Ok(
        line(1024, 6, functions.len() as u64)
            .saturating_add(line(0, 4, values))
            .saturating_add(line(0, 4, numbers))
            .saturating_add(line(0, 4, externals)),
    )
}
