ghost use Rattle.std.specs.Prelude.{MatchResult};
ghost use Rattle.hourfile.specs.Cursor.{Entering, Ruled};
ghost use Rattle.hourfile.specs.Outcome.{FirstFault};

use crate::call::enter;
use crate::cursor::Cursor;
use crate::fault::LineFault;
use crate::hour_file::HourFile;
use file::RuleName;
use hour::PricedHour;

impl HourFile<'_> {
    // Makes the calls of the lines from the cursor on up to that of the rule; answers the cursor behind it, and the rule.
    // The loop shares the read and the fault of a line with that of `trade_lines`; the calls answer otherwise, and it ends behind a line.
    pub fn enter_lines(
        self,
        hour: &mut PricedHour,
        start: Cursor,
    ) -> Result<(Cursor, RuleName), LineFault>
        requires { Entering self.bytes.now hour.old.book start }
        ensures { MatchResult result (λ stop. Ruled self.entry.bytes.now hour.new.book stop.0 stop.1) (λ at. FirstFault self.entry.bytes.now at) }
    {
        let mut cursor = start;
        loop {
            let read = self.read(cursor)?;
            match enter(hour, &read.item) {
                Ok(None) => cursor = cursor.behind(&read),
                Ok(Some(name)) => return Ok((cursor.behind(&read), name)),
                Err(fault) => return Err(cursor.fault(fault)),
            }
        }
    }
}
