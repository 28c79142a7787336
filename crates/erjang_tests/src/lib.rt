//! Tests of the program and of the crates that read a source, through their public calls.
//!
//! They stand apart so that these crates are proved once and not a second time with their tests.
#![tactic(auto)]

#[cfg(test)]
mod accepted;
#[cfg(test)]
mod instruction_cases;
#[cfg(test)]
mod instructions;
#[cfg(test)]
mod many_files;
#[cfg(test)]
mod pool;
#[cfg(test)]
mod runs;
#[cfg(test)]
mod slots;
#[cfg(test)]
mod source_rows;
#[cfg(test)]
mod text_rows;
#[cfg(test)]
mod verifying;
