//! The library for C. C gives no guarantees, so each function first validates its arguments, in the order that its
//! declaration in `lib/pfs.h` says. A call on a prepared instance takes the instance out of the struct of C (`handle`),
//! works on it and puts it back. Processing times are stored job by job: `times[job * machines + machine]`. Jobs,
//! machines and places count from 0.
#![tactic(auto)]

mod asking;
mod given;
mod handle;
mod iterating;
mod kept;
pub mod laws;
mod many;
mod numbers;
mod parts;
mod proving;
mod random;
mod rows;
mod searching;
mod spans;
mod texts;
mod ties;
