//! From the bytes of a source to its module.

ghost use Rattle.std.specs.Prelude.{IfErr, IfOk};
ghost use Rattle.beam_code.specs.Code.{module_code};
ghost use Rattle.beam_code.specs.Labels.{KeepsLabelRules};
ghost use Rattle.erjang_compile.specs.Accepted.{AreMaps, KeepsRules};
ghost use Rattle.erjang_compile.specs.Answers.{Answers, IsFirst, IsUnslotted};
ghost use Rattle.erjang_compile.specs.Faults.{Passes, Refuses};
ghost use Rattle.erjang_compile.specs.Laws.{OneAnswer};

use crate::fault::SourceFault;
use crate::sizes::first_large;
use crate::source::Source;
use asm_module::module_of;
use asm_terms::read_forms;
use beam_code::{Module, SlotMap};
use label_check::check;
use slot_kinds::{SlotFault, kinds};
use sqlite_items::Items;
use std::alloc::Global;

/// The module whose source the bytes are, with the slot map of each of its functions: the most defined good assignment of
/// slot states to exactly the labels of the function. The weights of functions and constants and the lengths of literals are
/// looked at where `sizes` is true.
///
/// # Errors
/// What is wrong first, in this order: the first form of the text that does not read; the first form or instruction that is
/// none of a module; the first break of a label rule; the first function that is not well slotted; and, where `sizes` is
/// true, the first function of a weight above 32,767, a weight of the constants above 65,534, and the first literal whose
/// canonical print has more than 65,535 bytes. `NoMemory` where memory was wanting, in whichever check.
pub fn accept(alloc: Global, bytes: &[u8], sizes: bool) -> Result<Source, SourceFault>
    ensures passes { IfOk result (λ source. Passes sizes bytes.now source.«module») }
    ensures mapped { IfOk result (λ source. AreMaps (module_code source.«module») source.maps) }
    ensures first { IfErr result (Refuses sizes bytes.now) }
    ensures one { OneAnswer sizes bytes.now }
{
    let module = checked(alloc, bytes)?;
    let maps = slot_maps(alloc, &module)?;
    if !sizes {
        return Ok(Source { module, maps });
    }
    match first_large(alloc, &module, maps.as_slice())? {
        Some(large) => Err(SourceFault::TooLarge(large)),
        None => Ok(Source { module, maps }),
    }
}

// The module whose source the bytes are, where it keeps the label rules.
fn checked(alloc: Global, bytes: &[u8]) -> Result<Module, SourceFault>
    ensures { Answers (KeepsRules bytes.now) (IsFirst bytes.now) result }
{
    let forms = read_forms(alloc, bytes)?;
    let module = module_of(alloc, forms.as_slice())?;
    check(alloc, &module)?;
    Ok(module)
}

// The slot maps of the functions of a module.
fn slot_maps(alloc: Global, module: &Module) -> Result<Items<SlotMap>, SourceFault>
    requires { KeepsLabelRules (module_code «module».now) }
    ensures { Answers (AreMaps (module_code «module».now)) (IsUnslotted (module_code «module».now)) result }
{
    let mut maps = Items::new(alloc);
    for func in 0..module.functions.len() {
        match kinds(alloc, module, func) {
            Ok(map) => maps.push(map)?,
            Err(SlotFault::NotSlotted) => return Err(SourceFault::NotSlotted { func }),
            Err(SlotFault::NoMemory) => return Err(SourceFault::NoMemory),
        }
    }
    Ok(maps)
}
