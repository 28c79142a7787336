//! Tests of the crates of class files, through their public calls.
//!
//! They stand apart so that these crates are proved once and not a second time with their tests.
#![tactic(auto)]

#[cfg(test)]
mod class_files;
#[cfg(test)]
mod maps;
#[cfg(test)]
mod pools;
#[cfg(test)]
mod rows;
#[cfg(test)]
mod tables;
#[cfg(test)]
mod verifying;
#[cfg(test)]
mod written;
