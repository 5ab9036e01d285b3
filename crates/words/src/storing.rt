// Words in buffers of bytes.
ghost use Rattle.std.specs.Prelude.{◌≡◌, ◌+◌, ◌*◌};
ghost use Rattle.words.specs.Bytes.{stored};

// The word of two bytes, the high one first.
pub fn joined(high: u8, low: u8) -> u16
    ensures { result ≡ 256 * high + low }
{
    u16::from_be_bytes([high, low])
}

// Puts a word at place `at` of a buffer, counted in words, the high byte first; where the buffer has no such word, nothing changes.
pub fn store(bytes: &mut [u8], at: usize, word: u16)
    ensures { bytes.new ≡ stored at word bytes.old }
{
    if at < bytes.len() / 2 {
        bytes[2 * at..2 * at + 2].copy_from_slice(&word.to_be_bytes());
    }
}
