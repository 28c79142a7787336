//! A law of verification.

ghost use Rattle.std.specs.Prelude.{◌≡◌};
ghost use Rattle.jvm_code.specs.declared.class.Class.{Class as ClassSeen};
ghost use Rattle.jvm_code.specs.Verification.{Fault, FirstFault, IsVerified};

/// A class that is verified has no first fault, and another has at most one.
pub fn classes_have_one_verdict()
    ensures verified { (class : ClassSeen) (fault : Fault) → IsVerified class → FirstFault class fault → ⊥ }
    ensures one { (class : ClassSeen) (one other : Fault) → FirstFault class one → FirstFault class other → one ≡ other }
{}
