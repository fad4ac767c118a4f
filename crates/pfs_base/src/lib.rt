//! Flow shop instances, and what all other crates build on: the limits, a bench that counts what it computes
//! with durations, and readers and writers that may fail.
#![tactic(auto)]

mod bench;
mod buffered;
mod device;
mod from_read;
pub mod heads;
mod instance;
pub mod laws;
mod limits;
mod metered;
mod notes;
mod permit;
pub mod print;
mod to_write;

pub use bench::{Bench, Length, SPAN_MAX, Shop};
pub use buffered::Buffered;
pub use device::{Sink, Source, WriteFault, put};
pub use from_read::FromRead;
pub use instance::{BaseFault, Instance};
pub use limits::{
    GREATEST_NOTE, LONGEST_INPUT, LONGEST_ORDER_FILE, LONGEST_TIME, MOST_BLOCKS, MOST_JOBS,
    MOST_MACHINES, MOST_PASSES, MOST_ROUNDS,
};
pub use metered::{Metered, Span};
pub use notes::Notes;
pub use permit::{Paid, Permit};
pub use to_write::ToWrite;
