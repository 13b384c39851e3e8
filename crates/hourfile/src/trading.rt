ghost use Rattle.std.specs.Prelude.{MatchResult};
ghost use Rattle.hourfile.specs.Cursor.{Trading, EntryNext};
ghost use Rattle.hourfile.specs.Outcome.{FirstFault};

use crate::call::trade;
use crate::cursor::Cursor;
use crate::fault::{Fault, LineFault};
use crate::hour_file::HourFile;
use hour::TradingHour;

impl HourFile<'_> {
    // Makes the calls of the trading lines from the cursor on; answers where the first other line stands.
    pub fn trade_lines(self, hour: &mut TradingHour, start: Cursor) -> Result<Cursor, LineFault>
        requires { Trading self.bytes.now hour.old.market start }
        ensures { MatchResult result (λ cursor. Trading self.entry.bytes.now hour.new.market cursor × EntryNext self.entry.bytes.now cursor) (λ at. FirstFault self.entry.bytes.now at) }
    {
        let mut cursor = start;
        loop {
            let read = self.read(cursor)?;
            match trade(hour, &read.item) {
                Some(Ok(())) => cursor = cursor.behind(&read),
                Some(Err(fault)) => return Err(cursor.fault(Fault::Hour(fault))),
                None => return Ok(cursor),
            }
        }
    }
}
