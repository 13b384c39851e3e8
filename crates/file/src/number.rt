ghost use Rattle.std.specs.Prelude.{◌≡◌, MatchOption};
ghost use Rattle.file.specs.Number.{Started, Goes, Ends, Longest};

use crate::position::Position;

// The longest number that stands at a position, and the position behind it.
#[derive(Clone, Copy)]
pub struct Number<'a> {
    pub value: u32,
    pub next: Position<'a>,
}

// The number that a further byte makes; none if no number goes on so.
fn next_value(value: u32, digits: usize, byte: u8) -> Option<u32>
    requires { Started value digits }
    ensures { MatchOption result (Ends value digits byte) (λ more. Goes value digits byte more) }
{
    match byte {
        b'0'..=b'9' if digits == 0 => Some(u32::from(byte - b'0')),
        b'0'..=b'9' if value == 0 => None,
        b'0'..=b'9' if digits < 9 => Some(value * 10 + u32::from(byte - b'0')),
        b'0'..=b'5' if digits == 9 && value <= 429_496_729 => Some(
            value * 10 + u32::from(byte - b'0'),
        ),
        b'6'..=b'9' if digits == 9 && value < 429_496_729 => Some(
            value * 10 + u32::from(byte - b'0'),
        ),
        _ => None,
    }
}

impl<'a> Position<'a> {
    ghost use Rattle.file.specs.Number.{StandsLongest};

    // Reads the longest number that stands here; none if no digit does.
    pub fn number(self) -> Option<Number<'a>>
        ensures { MatchOption result (Longest self.entry.file.now self.entry.at 0 self.entry.at) (λ number. StandsLongest self.entry.file.now self.entry.at number) }
    {
        let mut value = 0;
        let mut next = self;
        for (digits, byte) in self.rest().iter().enumerate() {
            let Some(more) = next_value(value, digits, *byte) else {
                break;
            };
            value = more;
            next = next.behind(1);
        }
        (self.at < next.at).then_some(Number { value, next })
    }
}
