// The low bits of a word, as numbers of their width. One for each: no trait of the library cuts a word to a type, so a generic one would
// need a trait of its own, with what follows once more in each of three impls.
ghost use Rattle.std.specs.Prelude.{◌≡◌, ◌==◌, ◌%◌};

pub fn low_u8(word: u64) -> u8
    ensures { result ≡ word % 256 }
{
    (word % 0x100) as u8
}

pub fn low_u16(word: u64) -> u16
    ensures { result ≡ word % 65536 }
{
    (word % 0x1_0000) as u16
}

pub fn low_u32(word: u64) -> u32
    ensures { result ≡ word % 4294967296 }
{
    (word % 0x1_0000_0000) as u32
}

pub fn low_bit(word: u64) -> bool
    ensures { result ≡ (word % 2 == 1) }
{
    word % 2 == 1
}
