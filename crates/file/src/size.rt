ghost use Rattle.std.specs.Prelude.{◌≡◌, length, nat_lt};

// The most bytes that a file may have.
pub const SIZE_LIMIT: usize = 32_768;

// Whether a file has too many bytes.
pub fn is_oversized(file: &[u8]) -> bool
    ensures { result ≡ nat_lt 32768 (length file.now) }
{
    file.len() > SIZE_LIMIT
}
