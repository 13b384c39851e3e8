ghost use Rattle.std.specs.Result.{MatchResult};
ghost use Rattle.hourfile.specs.Print.{lines_of};
ghost use Rattle.hourfile.specs.Outcome.{Settled, Unsettled, Settles, FaultAnswer};

use crate::fault::{Fault, LineFault};
use crate::hour_file::HourFile;
use crate::print::Print;
use crate::run::settle_run;
use crate::statement::{fault_print, statement_of};
use hour::Line;

// Settles the hour of a file; answers its statement.
fn settle_hour(bytes: &[u8]) -> Result<Print, LineFault>
    ensures { MatchResult result (λ print. Settled bytes.now (lines_of print)) (λ at. Unsettled bytes.now at) }
{
    let file = HourFile::new(bytes)?;
    let (mut hour, rule) = file.read_hour()?;
    let mut lines = [Line::default(); 32];
    settle_run(&mut hour, rule, &mut lines)?;
    Ok(statement_of(&hour, &lines[0..hour.line_count()]))
}

// Settles the hour of a file and fills the text with its statement or its fault; answers how many bytes that takes.
pub fn settle(file: &[u8], text: &mut [u8]) -> Result<usize, Fault>
    ensures { Settles file.now text.old result text.new }
{
    let print = settle_hour(file).unwrap_or_else(fault_print);
    Ok(print.write(text)?)
}

// What is at fault in a file; none if its hour can be settled.
pub fn find_fault(file: &[u8]) -> Option<LineFault>
    ensures { FaultAnswer file.now result }
{
    settle_hour(file).err()
}
