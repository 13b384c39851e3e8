ghost use Rattle.hourfile_c.specs.Export.{SettlesFor};

use hourfile::settle;

// Settles a file for callers in C or Rust; answers how many bytes of the text are filled.
// A text that is too short answers 0, since C has no Option.
#[unsafe(no_mangle)]
pub extern "C" fn hourbill_settle(file: &[u8], text: &mut [u8]) -> u64
    ensures { SettlesFor file.now text.old result text.new }
{
    settle(file, text).unwrap_or(0) as u64
}
