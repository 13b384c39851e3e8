ghost use Rattle.std.specs.Prelude.{MatchResult};
ghost use Rattle.hourfile.specs.Cursor.{Opened, ReadWhole};
ghost use Rattle.hourfile.specs.Outcome.{FirstFault};

use crate::cursor::Cursor;
use crate::fault::LineFault;
use crate::hour_file::HourFile;
use file::{Item, RuleName};
use hour::{PricedHour, TradingHour};

impl HourFile<'_> {
    // Reads the hour line; answers the label and the cursor behind the line.
    fn read_label(self) -> Result<(u32, Cursor), LineFault>
        ensures { MatchResult result (λ first. Opened self.entry.bytes.now first.0 first.1) (λ at. FirstFault self.entry.bytes.now at) }
    {
        let cursor = Cursor::first();
        let read = self.read(cursor)?;
        let Item::Hour { label } = read.item else {
            unreachable()
        };
        Ok((label, cursor.behind(&read)))
    }

    // Makes the calls of the lines; answers the hour and the rule.
    pub fn read_hour(self) -> Result<(PricedHour, RuleName), LineFault>
        ensures { MatchResult result (λ whole. ReadWhole self.entry.bytes.now whole.0.book whole.1) (λ at. FirstFault self.entry.bytes.now at) }
    {
        let (label, start) = self.read_label()?;
        let mut trading = TradingHour::new(label);
        let entries = self.trade_lines(&mut trading, start)?;
        let mut hour = trading.close();
        let (end, rule) = self.enter_lines(&mut hour, entries)?;
        self.check_end(end)?;
        Ok((hour, rule))
    }
}
