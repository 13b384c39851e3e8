ghost use Rattle.hour.specs.Market.{OpenTables};

use crate::market::Market;

mod calls;

// An hour that is open for trading.
#[derive(Drop)]
pub struct TradingHour {
    pub(crate) market: Market,
    ghost kept: { OpenTables market },
}
