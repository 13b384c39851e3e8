ghost use Rattle.std.specs.Prelude.{◌≡◌, ◌-◌, ◌<◌, IfOk, if◌then◌else◌, Ok, Err};
ghost use Rattle.hour.specs.declared.fault.Fault.TheVariants.{OutOfRange};
ghost use Rattle.hour.specs.Reason.{outside};

use crate::fault::Fault;

// Assets are numbered from 1 to 64, as are instructions, and participants from 1 to 32.
pub const ASSETS: u32 = 64;

pub const INSTRUCTIONS: u32 = 64;

pub const PARTICIPANTS: u32 = 32;

// Place in a table of what is numbered from 1 to COUNT.
pub fn place_of<const COUNT: u32>(number: u32) -> Result<usize, Fault>
    ensures value { result ≡ (if outside 1 COUNT number then Err (OutOfRange number) else Ok (number - 1)) }
    ensures within { IfOk result (λ place. place < COUNT) }
{
    if number < 1 || number > COUNT {
        return Err(Fault::OutOfRange(number));
    }
    Ok(number as usize - 1)
}
