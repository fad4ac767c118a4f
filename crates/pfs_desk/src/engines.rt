//! The engine of each command reads its files, computes all that it prints, and only then writes. So the first
//! of these faults is reported: one of the instance file, one of the order file or of the destruction size,
//! a failed allocation elsewhere, a failed write.

pub mod check;
pub mod convert;
pub mod generate;
pub mod solve;
pub mod table;
pub mod value;
