//! The running world: processes over any code, the signals between them, and the choices of a script.
//!
//! A code is a `Process`: how a process begins, and what a turn does to its state, to its view of the world and to the
//! heap. `World` runs it, choice by choice, and keeps what is seen as events. What a view, an event or a world stands for is
//! what `ej_world` defines, with each id of the heap read as its term.
#![tactic(auto)]

mod call;
mod delivery;
mod fault;
mod node;
pub mod numbers;
mod process;
mod queues;
mod ready;
mod rounds;
mod running;
mod signal;
mod slot;
mod system;
mod turn;
mod view;
mod world;

pub use fault::ChoiceFault;
pub use process::Process;
pub use view::{Outcome, View};
pub use world::World;
