//! The command `pfs`: it collects its arguments and runs the program with the streams and the files of the system.
#![tactic(auto)]

ghost use Rattle.std.specs.Prelude.{None};
ghost use Rattle.pfs_desk.specs.FileState.{unknown};

use pfs_base::{Buffered, FromRead, ToWrite};
use pfs_desk::{Files, OpenFault, PathText, Stop, UsageFault, finish, run_program};
use std::fs::File;
use std::io::ErrorKind;
use std::process::ExitCode;
use std::{env, io};

/// The files of the system. Contracts state nothing about what they contain.
#[derive(Drop)]
struct SystemFiles<'a> {
    rt: &'a HostRuntime,
}

impl Files for SystemFiles<'_> {
    type File = FromRead<File>;

    ghost state = { λ files path. unknown };

    ghost log = { λ files. None };

    fn open(&mut self, path: &PathText) -> Result<FromRead<File>, OpenFault> {
        match File::open(self.rt, path.as_str()) {
            Ok(file) => Ok(FromRead::new(file)),
            Err(error) if is_out_of_memory(&error) => Err(OpenFault::Memory),
            Err(_) => Err(OpenFault::Closed),
        }
    }

    fn close(&mut self, _file: FromRead<File>) {}
}

fn main(rt: HostRuntime) -> ExitCode {
    let status = match words_of(&rt) {
        Ok(words) => run_words(&rt, words.as_slice()),
        Err(fault) => finish(&mut ToWrite::new(rt.stderr()), &Err(Stop::from(fault))),
    };
    ExitCode::from(status)
}

// Runs the program on these arguments, with the files and the streams of the system.
fn run_words(rt: &HostRuntime, words: &[String]) -> u8 {
    let mut files = SystemFiles { rt };
    let mut input = FromRead::new(rt.reader());
    let mut output = Buffered::new(ToWrite::new(rt.stdout()));
    let mut errors = ToWrite::new(rt.stderr());
    run_program(
        rt.alloc(),
        words,
        &mut files,
        &mut input,
        &mut output,
        &mut errors,
    )
}

// Returns the arguments after the program's name. Arguments that aren't UTF-8 are invalid.
fn words_of(rt: &HostRuntime) -> Result<Vec<String>, UsageFault> {
    let mut args = match env::args(rt) {
        Ok(args) => args,
        Err(error) if is_out_of_memory(&error) => return Err(UsageFault::Memory),
        Err(_) => return Err(UsageFault::Usage),
    };
    args.next();
    let mut words = Vec::with_capacity(rt.alloc(), args.len()).or(Err(UsageFault::Memory))?;
    for word in args {
        words.push(word).or(Err(UsageFault::Memory))?;
    }
    Ok(words)
}

// Returns whether an allocation failed.
fn is_out_of_memory(error: &io::Error) -> bool {
    matches!(error.kind(), ErrorKind::OutOfMemory)
}
