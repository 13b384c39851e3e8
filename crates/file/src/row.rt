ghost use Rattle.std.specs.Prelude.{◌≡◌, ◌+◌, ◌<◌, if◌then◌else◌, nat_lt};

// What ends the item at a place of a row: a line feed behind the last one, else a comma.
pub fn row_end<T: Copy>(place: usize, count: usize, comma: T, line: T) -> T
    requires { place < count }
    ensures { result ≡ (if nat_lt (place + 1) count then comma else line) }
{
    if place + 1 < count { comma } else { line }
}
