ghost use Rattle.std.specs.Prelude.{◌≡◌, ◌≤◌, length};

use file::PrintLine;

mod lines;

// The lines of a print, the first `count` held: a fault alone, or a statement of at most 35 lines.
// An array with a count, since a print is Copy and an ArrayVec is not.
#[derive(Clone, Copy)]
pub struct Print {
    held: [PrintLine; 35],
    count: usize,
    ghost places: { length held ≡ 35 },
    ghost few: { count ≤ 35 },
}
