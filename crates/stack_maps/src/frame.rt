//! A frame at its place.

use jvm_code::Frame;

/// The types at an offset of the code.
#[derive(Debug, Drop)]
pub struct MapFrame {
    /// The offset in bytes from the method's first instruction.
    pub offset: u16,
    /// The types there. A Long is one entry.
    pub frame: Frame,
}
