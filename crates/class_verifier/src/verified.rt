//! Verifies a class.

ghost use Rattle.jvm_code.specs.ReadClass.{IsProfile};
ghost use Rattle.class_verifier.specs.Verdict.{Verifies};

use crate::check::check;
use crate::fault::Refused;
use jvm_code::Class;
use std::alloc::Global;
use std::marker::Model;

/// A class of the profile that keeps the type-checking rules, and whose calls are linked. Contracts see the class.
#[derive(Debug, Drop)]
pub struct Verified {
    class: Class,
}

impl Model for Verified {
    ghost use Rattle.jvm_code.specs.declared.class.Class.{Class as ClassSeen};
    ghost use Rattle.jvm_code.specs.ReadClass.{IsProfile};
    ghost use Rattle.jvm_code.specs.Verification.{IsVerified};

    ghost Value = { ClassSeen };

    ghost view = { λ verified. verified.class };

    ghost invariant = { λ verified. IsProfile verified.class × IsVerified verified.class };
}

impl Verified {
    ghost use Rattle.std.specs.Prelude.{◌≡◌};

    /// The class.
    pub fn class(&self) -> &Class
        ensures { result.now ≡ self.now }
    {
        &self.class
    }
}

/// The class, verified, or else handed back with what is wrong first.
pub fn verify(alloc: Global, class: Class) -> Result<Verified, Refused>
    requires { IsProfile class }
    ensures { Verifies class result }
{
    match check(alloc, &class) {
        Ok(()) => Ok(Verified { class }),
        Err(fault) => Err(Refused { class, fault }),
    }
}
