ghost use Rattle.std.specs.Prelude.{◌≡◌, ◌≤◌, ◌++◌, map, length};
ghost use Rattle.file.specs.Figure.{figure_text};
ghost use Rattle.file.specs.Row.{row};

use crate::figure::{Figure, LineText};
use crate::row::row_end;

// The line of a key with its equals sign and a row of figures.
pub fn line_text(key: &[u8], figures: &[Figure]) -> LineText
    requires key_short { length key.now ≤ 6 }
    requires few { length figures.now ≤ 7 }
    ensures { result.items ≡ key.now ++ row (map figure_text figures.now) }
{
    let mut text = LineText::new();
    text.try_extend_from_slice(key).unwrap();
    for (i, figure) in figures.iter().enumerate() {
        figure.print(&mut text);
        text.push(row_end(i, figures.len(), b',', b'\n'));
    }
    text
}
