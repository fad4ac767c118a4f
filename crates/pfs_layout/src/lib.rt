//! Instance files of flow shops, in Taillard's layout and the OR-Library's: definitions and laws, a reader that
//! takes an input in pieces cut anywhere, a writer, and Taillard's generator.
#![tactic(auto)]

mod blocks;
mod body;
mod examples;
mod fault;
mod generator;
pub mod laws;
mod layout;
mod reader;
mod scan;
mod size_line;
mod writing;

pub use blocks::Progress;
pub use fault::LayoutFault;
pub use generator::generate;
pub use layout::Layout;
pub use reader::{BlockReader, PIECE, read_block};
pub use writing::write_block;
