//! What a value is in its field.

ghost use Rattle.std.specs.Prelude.{◌≡◌};
ghost use Rattle.class_file.specs.Verdicts.{Settles, verdict_of};
ghost use Rattle.jvm_code.specs.Reader as reader;

use crate::fault::ClassFault;

/// Whether a value may stand in its field.
#[derive(Clone, Copy)]
pub(crate) enum Verdict {
    Fine,
    /// It breaks the format.
    Broken,
    /// The profile forbids it.
    Forbidden,
}

/// The verdict of a test of the format.
pub(crate) fn broken_unless(fine: bool) -> Verdict
    ensures { verdict_of result ≡ reader.broken_unless fine }
{
    if fine { Verdict::Fine } else { Verdict::Broken }
}

/// The verdict of a test of the profile.
pub(crate) fn forbidden_unless(fine: bool) -> Verdict
    ensures { verdict_of result ≡ reader.forbidden_unless fine }
{
    if fine {
        Verdict::Fine
    } else {
        Verdict::Forbidden
    }
}

/// The fault of a field at that offset, if it is wrong.
pub(crate) fn settle(verdict: Verdict, offset: usize) -> Result<(), ClassFault>
    ensures { Settles (verdict_of verdict) offset result }
{
    match verdict {
        Verdict::Fine => Ok(()),
        Verdict::Broken => Err(ClassFault::NotClass { offset }),
        Verdict::Forbidden => Err(ClassFault::OutsideProfile { offset }),
    }
}
