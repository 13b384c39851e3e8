//! Settles the hour file on standard input: prints its statement, or its fault and a sentence on what is wrong.
#![tactic(auto)]

mod error;
mod reason;
mod sentence;

use error::Stop;
use file::SIZE_LIMIT;
use hourfile::{find_fault, settle};
use sentence::Sentence;
use std::env;
use std::io::{Read, Write};
use std::process::ExitCode;

// More bytes than any print takes.
const TEXT_SIZE: usize = 8192;

const USAGE: &str = "usage: hoursettle < FILE

Settles one hour of the pool. FILE is an hour file of at most 32768 bytes.
The statement, or the fault of the file, is written to standard output.
A fault is also put into words on standard error, and the status is then 1.";

// Standard input up to one byte past the size limit.
fn read_file(rt: &HostRuntime) -> Result<Vec<u8>, Stop> {
    let mut bytes = Vec::new(rt.alloc());
    rt.stdin()
        .take(SIZE_LIMIT as u64 + 1)
        .read_to_end(&mut bytes)?;
    Ok(bytes)
}

// Settles standard input.
fn settle_input(rt: &HostRuntime) -> Result<(), Stop> {
    let file = read_file(rt)?;
    let mut text = [0; TEXT_SIZE];
    let Ok(count) = settle(&file, &mut text) else {
        return Err(Stop::TextTooShort);
    };
    rt.stdout().write_all(&text[0..count])?;
    match find_fault(&file) {
        Some(at) => Err(Stop::Fault(Sentence(at))),
        None => Ok(()),
    }
}

// Runs the program by its arguments.
fn run(rt: &HostRuntime) -> Result<(), Stop> {
    let mut arguments = env::args(rt)?;
    let _name = arguments.next();
    match arguments.next() {
        None => settle_input(rt),
        Some(argument) if argument.as_str() == "--help" => {
            println!(rt; "{USAGE}")?;
            Ok(())
        }
        Some(_) => Err(Stop::Usage),
    }
}

// Each program tells its own error in this shape; a crate for it would be longer than the two.
fn main(rt: HostRuntime) -> ExitCode {
    match run(&rt) {
        Ok(()) => ExitCode::SUCCESS,
        Err(stop) => {
            let _ = eprintln!(rt; "hoursettle: {stop}");
            ExitCode::FAILURE
        }
    }
}
