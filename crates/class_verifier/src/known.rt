//! What each method is verified with.

ghost use Rattle.std.specs.Prelude.{◌≡◌, IfOk};
ghost use Rattle.jvm_code.specs.StackMaps.{first as first_frame};
ghost use Rattle.class_verifier.specs.Calls.{IsString};

use ej_term::Text;
use jvm_code::{Frame, VType};
use sqlite_items::Items;
use std::alloc::{AllocError, Global};

/// The name of the class of strings, and what stands before the first frame of each method.
#[derive(Drop)]
pub(crate) struct Known {
    pub(crate) string: Text,
    pub(crate) first: Frame,
    ghost named: { IsString string },
    ghost begins: { first ≡ first_frame },
}

impl Known {
    /// The name, and the frame. The error says that memory was wanting.
    pub(crate) fn new(alloc: Global) -> Result<Known, AllocError> {
        let string = Text::make(alloc, "java/lang/String")?;
        Ok(Known {
            string,
            first: first(alloc)?,
        })
    }
}

// The parameters of each method are a process and an int.
fn first(alloc: Global) -> Result<Frame, AllocError>
    ensures { IfOk result (λ frame. frame ≡ first_frame) }
{
    let mut locals = Items::new(alloc);
    locals.push(VType::Class(Text::make(alloc, "erl/Proc")?))?;
    locals.push(VType::Integer)?;
    Ok(Frame {
        locals,
        stack: Items::new(alloc),
    })
}
