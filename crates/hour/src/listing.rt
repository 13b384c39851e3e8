ghost use Rattle.std.specs.Prelude.{◌≡◌};
ghost use Rattle.hour.specs.Listing.{listing};

use crate::figure::is_listed;
use crate::market::Market;
use arrayvec::ArrayVec;

// The participants with an enrolled asset, by rising number.
pub fn list_participants(market: &Market) -> ArrayVec<u32, 32>
    ensures { result.items ≡ listing market.now }
{
    // `collect` and `extend` answer a Result; a push with room cannot fail.
    let mut participants = ArrayVec::new();
    for participant in 1..=32 {
        if is_listed(market, participant) {
            participants.push(participant);
        }
    }
    participants
}
