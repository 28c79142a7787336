//! The attribute `StackMapTable` of a method (JVMS SE 7, 4.7.4), both ways: the frames that its bytes stand for, each with
//! its offset in the code, and bytes for frames.
//!
//! What bytes stand for is a definition of `jvm_code`, by the standard's forms of frames. Reading is one pass.
#![tactic(auto)]

mod fault;
mod frame;
mod laws;
mod reading;
mod source;
mod spelling;
mod texts;
mod types;

pub use fault::MapFault;
pub use frame::MapFrame;
pub use laws::bytes_have_one_list_of_frames;
pub use reading::decode;
pub use spelling::encode;
