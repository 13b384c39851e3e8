//! Reads the trading lines of an hour from standard input and prints the hour's pool price and who set it.
#![tactic(auto)]

mod error;
mod field;
mod key;
mod reader;
mod report;

use error::Stop;
use std::io::Read;
use std::process::ExitCode;

// The most bytes that an hour file has.
const MAX_BYTES: usize = 32768;

// Standard input as text; a byte that is not UTF-8 becomes a character that no field has.
fn read_input(rt: &HostRuntime) -> Result<String, Stop> {
    let mut bytes = Vec::new(rt.alloc());
    rt.stdin()
        .take(MAX_BYTES as u64 + 1)
        .read_to_end(&mut bytes)?;
    if bytes.len() > MAX_BYTES {
        return Err(Stop::TooLong);
    }
    Ok(String::from_utf8_lossy(rt.alloc(), &bytes)?)
}

fn run(rt: &HostRuntime) -> Result<(), Stop> {
    let text = read_input(rt)?;
    let hour = reader::read_hour(rt.alloc(), text.as_str())?.close();
    let report = report::report(rt.alloc(), &hour)?;
    rt.print(report)?;
    Ok(())
}

// Each program tells its own error in this shape; a crate for it would be longer than the two.
fn main(rt: HostRuntime) -> ExitCode {
    match run(&rt) {
        Ok(()) => ExitCode::SUCCESS,
        Err(stop) => {
            let _ = eprintln!(rt; "hourbill: {stop}");
            ExitCode::FAILURE
        }
    }
}
