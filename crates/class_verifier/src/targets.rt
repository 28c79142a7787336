//! Where control may go from an instruction.

ghost use Rattle.std.specs.Prelude.{◌≡◌, ℤ, map};
ghost use Rattle.std.specs.List.{list_all};
ghost use Rattle.jvm_code.specs.Instruction.{target};
ghost use Rattle.jvm_code.specs.Verification.{reaches as reaches_target};
ghost use Rattle.class_verifier.specs.OpParts as spec;
ghost use Rattle.class_verifier.specs.Seen.{state_seen};

use crate::scope::Scope;
use crate::state::State;
use jvm_code::Op;

/// Whether control may go to the next instruction.
pub(crate) fn goes_on(op: &Op) -> bool
    ensures { result ≡ spec.goes_on op.now }
{
    !matches!(
        op,
        Op::Goto(_) | Op::TableSwitch(..) | Op::LookupSwitch(..) | Op::IReturn
    )
}

/// Whether a frame stands at each target of an instruction at that offset, which the state behind it fits.
pub(crate) fn reaches_each(scope: &Scope<'_>, state: &State<'_>, pc: u16, op: &Op) -> bool
    ensures { result ≡ list_all (reaches_target scope.now.method.now scope.now.frames (state_seen state.now)) (map (target pc) (spec.offsets op.now)) }
{
    match op {
        Op::If(_, offset) | Op::IfIcmp(_, offset) | Op::IfAcmp(_, offset) => {
            reaches(scope, state, pc, i32::from(*offset))
        }
        Op::IfNull(_, offset) | Op::Goto(offset) => reaches(scope, state, pc, i32::from(*offset)),
        Op::TableSwitch(default, _, offsets) => {
            reaches(scope, state, pc, *default)
                && reaches_offsets(scope, state, pc, offsets.as_slice())
        }
        Op::LookupSwitch(default, pairs) => {
            reaches(scope, state, pc, *default) && reaches_pairs(scope, state, pc, pairs.as_slice())
        }
        _ => true,
    }
}

fn reaches_offsets(scope: &Scope<'_>, state: &State<'_>, pc: u16, offsets: &[i32]) -> bool
    ensures { result ≡ list_all (reaches_target scope.now.method.now scope.now.frames (state_seen state.now)) (map (target pc) offsets.now) }
{
    for offset in offsets {
        if !reaches(scope, state, pc, *offset) {
            return false;
        }
    }
    true
}

fn reaches_pairs(scope: &Scope<'_>, state: &State<'_>, pc: u16, pairs: &[(i32, i32)]) -> bool
    ensures { result ≡ list_all (reaches_target scope.now.method.now scope.now.frames (state_seen state.now)) (map (target pc) (map (λ (p : ℤ × ℤ). p.1) pairs.now)) }
{
    for (_, offset) in pairs {
        if !reaches(scope, state, pc, *offset) {
            return false;
        }
    }
    true
}

// Whether a frame stands at that offset from an instruction, which the state fits.
fn reaches(scope: &Scope<'_>, state: &State<'_>, pc: u16, offset: i32) -> bool
    ensures { result ≡ reaches_target scope.now.method.now scope.now.frames (state_seen state.now) (target pc offset) }
{
    match scope.frames.at(i64::from(pc) + i64::from(offset)) {
        None => false,
        Some(frame) => state.fits(scope.method.max_locals, frame),
    }
}
