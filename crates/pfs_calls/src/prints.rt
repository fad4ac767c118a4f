//! What calls print: each number and each fault on a line.
use crate::Stop;
use pfs_base::Instance;
use pfs_layout::{LayoutFault, Progress};

/// Prints a number after what it counts.
pub(crate) fn print_number(rt: &HostRuntime, what: &str, number: u64) -> Result<(), Stop> {
    println!(rt; "{what} {number}")?;
    Ok(())
}

/// Prints an instance's sizes and times.
pub(crate) fn print_instance(rt: &HostRuntime, instance: &Instance) -> Result<(), Stop> {
    print_number(rt, "jobs", instance.jobs() as u64)?;
    print_number(rt, "machines", instance.machines() as u64)?;
    for time in instance.times() {
        print_number(rt, "time", *time as u64)?;
    }
    Ok(())
}

/// Prints a fault of an instance file.
pub(crate) fn print_layout_fault(rt: &HostRuntime, fault: LayoutFault) -> Result<(), Stop> {
    println!(rt; "{fault:?}")?;
    Ok(())
}

/// Prints how far a reader has read.
pub(crate) fn print_progress(rt: &HostRuntime, progress: Progress) -> Result<(), Stop> {
    print_number(rt, "bytes", progress.used as u64)?;
    print_number(rt, "done", progress.done as u64)
}
