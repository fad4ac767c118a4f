//! Tests of devices that fail or move few bytes a call, and what these tests and `pfs_calls` share.
//! What contracts state is proved, and not tested again here.
#![tactic(auto)]

pub mod any_bench;
#[cfg(test)]
mod buffers;
#[cfg(test)]
mod devices;
pub mod events;
pub mod fakes;
#[cfg(test)]
mod logs;
#[cfg(test)]
mod long_inputs;
#[cfg(test)]
mod memory_files;
pub mod shops;
pub mod tasks;
pub mod texts;
pub mod words;
