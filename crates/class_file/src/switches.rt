//! Reads the two switches (JVMS SE 7, 6.5, `tableswitch` and `lookupswitch`), behind their opcodes. The offset of a source
//! is that in the code.

ghost use Rattle.std.specs.Prelude.{◌≡◌, ◌+◌, ◌-ℤ◌, nat_abs, int_le, true};
ghost use Rattle.class_file.specs.Gave.{Gave};
ghost use Rattle.jvm_code.specs.Padding.{pad};
ghost use Rattle.jvm_code.specs.ReadOps as spec;
ghost use Rattle.jvm_code.specs.Reader as reader;

use crate::fault::ClassFault;
use crate::source::Source;
use crate::verdict::{broken_unless, forbidden_unless, settle};
use jvm_code::Op;
use sqlite_items::Items;
use std::alloc::Global;

fn pad_byte(source: &mut Source<'_>) -> Result<u8, ClassFault>
    ensures { Gave (λ n. n) (reader.pad_byte source.old.at source.old.rest) result source.new }
{
    let at = source.at();
    let byte = source.u1()?;
    settle(forbidden_unless(byte == 0), at)?;
    Ok(byte)
}

#[tactic(auto, using(crate::proofs::PaddingRead::at_end, crate::proofs::PaddingRead::step_on, crate::proofs::PaddingRead::stops))]
fn padding(count: usize, source: &mut Source<'_>) -> Result<(), ClassFault>
    ensures { Gave (λ u. tt) (reader.padding count source.old.at source.old.rest) result source.new }
{
    let mut left = count;
    while left > 0 {
        left -= 1;
        match pad_byte(source) {
            Ok(_) => {}
            Err(fault) => return Err(fault),
        }
    }
    Ok(())
}

/// The bytes up to a multiple of 4 from the code's first byte.
fn padded(source: &mut Source<'_>) -> Result<(), ClassFault>
    ensures { Gave (λ u. tt) (spec.padded source.old.at source.old.rest) result source.new }
{
    let at = source.at();
    padding((4 - at % 4) % 4, source)
}

/// So many offsets.
#[tactic(auto, using(crate::proofs::TimesRead::at_end, crate::proofs::TimesRead::step_on, crate::proofs::TimesRead::stops))]
fn offsets(alloc: Global, count: u64, source: &mut Source<'_>) -> Result<Items<i32>, ClassFault>
    ensures { Gave (λ ns. ns) (reader.times count reader.s4 source.old.at source.old.rest) result source.new }
{
    let mut offsets = Items::new(alloc);
    let mut left = count;
    while left > 0 {
        left -= 1;
        match source.s4() {
            Ok(offset) => {
                offsets.push(offset)?;
            }
            Err(fault) => return Err(fault),
        }
    }
    Ok(offsets)
}

/// How many values there are from the low one to the high one.
fn count_between(low: i32, high: i32) -> u64
    requires { int_le low high ≡ true }
    ensures { result ≡ nat_abs (high -ℤ low) + 1 }
{
    (high as i64 - low as i64) as u64 + 1
}

/// A table of offsets, by values from the low one to the high one.
pub(crate) fn table_switch(alloc: Global, source: &mut Source<'_>) -> Result<Op, ClassFault>
    ensures { Gave (λ op. op) (spec.table_switch source.old.at source.old.rest) result source.new }
{
    padded(source)?;
    let default = source.s4()?;
    let low = source.s4()?;
    let at = source.at();
    let high = source.s4()?;
    if low > high {
        return Err(ClassFault::NotClass { offset: at });
    }
    let offsets = offsets(alloc, count_between(low, high), source)?;
    Ok(Op::TableSwitch(default, low, offsets))
}

fn pair(source: &mut Source<'_>) -> Result<(i32, i32), ClassFault>
    ensures { Gave (λ p. p) (spec.pair source.old.at source.old.rest) result source.new }
{
    let value = source.s4()?;
    Ok((value, source.s4()?))
}

/// So many values, each with its offset.
#[tactic(auto, using(crate::proofs::TimesRead::at_end, crate::proofs::TimesRead::step_on, crate::proofs::TimesRead::stops))]
fn pairs(
    alloc: Global,
    count: u32,
    source: &mut Source<'_>,
) -> Result<Items<(i32, i32)>, ClassFault>
    ensures { Gave (λ ps. ps) (reader.times count spec.pair source.old.at source.old.rest) result source.new }
{
    let mut pairs = Items::new(alloc);
    let mut left = count;
    while left > 0 {
        left -= 1;
        match pair(source) {
            Ok(pair) => {
                pairs.push(pair)?;
            }
            Err(fault) => return Err(fault),
        }
    }
    Ok(pairs)
}

/// Whether each value is above the one before it.
fn rises(pairs: &[(i32, i32)]) -> bool
    ensures { result ≡ spec.rises pairs.now }
{
    let mut before = None;
    for pair in pairs {
        if !is_above(before, pair.0) {
            return false;
        }
        before = Some(pair.0);
    }
    true
}

fn is_above(before: Option<i32>, value: i32) -> bool
    ensures { result ≡ spec.is_above before value }
{
    match before {
        Some(before) => before < value,
        None => true,
    }
}

/// The signed count of pairs, which is not negative.
fn pair_count(source: &mut Source<'_>) -> Result<u32, ClassFault>
    ensures { Gave (λ n. n) (spec.pair_count source.old.at source.old.rest) result source.new }
{
    let at = source.at();
    let count = source.u4()?;
    settle(broken_unless(count < 0x8000_0000), at)?;
    Ok(count)
}

/// Offsets, each by its value.
pub(crate) fn lookup_switch(alloc: Global, source: &mut Source<'_>) -> Result<Op, ClassFault>
    ensures { Gave (λ op. op) (spec.lookup_switch source.old.at source.old.rest) result source.new }
{
    padded(source)?;
    let default = source.s4()?;
    let count = pair_count(source)?;
    let at = source.at();
    let pairs = pairs(alloc, count, source)?;
    settle(broken_unless(rises(pairs.as_slice())), at)?;
    Ok(Op::LookupSwitch(default, pairs))
}
