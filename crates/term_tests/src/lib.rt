//! Tests of the crates of tables and terms, through their public calls.
//!
//! They stand apart so that these crates are proved once and not a second time with their tests.
#![tactic(auto)]

#[cfg(test)]
mod cases;
#[cfg(test)]
mod changed_maps;
#[cfg(test)]
mod forests;
#[cfg(test)]
mod heaps;
#[cfg(test)]
mod instruction_tables;
#[cfg(test)]
mod loads;
#[cfg(test)]
mod mailboxes;
#[cfg(test)]
mod numbers;
#[cfg(test)]
mod operations;
#[cfg(test)]
mod prints;
mod sharing;
#[cfg(test)]
mod tables;
#[cfg(test)]
mod texts;
