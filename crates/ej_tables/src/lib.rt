//! Tables whose rows are looked up by name and by number, and a cursor over big-endian bytes.
//!
//! A table keeps that its rows are distinct, so the row that is found is the only one. A cursor's numbers have
//! exactly the bytes that were read.
#![tactic(auto)]

mod cursor;
mod table;

pub use cursor::Cursor;
pub use table::{Numbered, Row, Table, TableOf};
