// Nibbles, bytes and 32-bit words: the shifts, masks and sums that the cipher is made of, each against its arithmetic meaning.
#![tactic(auto)]

ghost use Rattle.std.specs.Prelude.{◌≡◌, ◌*◌, ◌%◌};
ghost use Rattle.words.specs.Word.{rol, ror, sum32, word_of, byte_of, bytes_of};

// The low nibble of b rotated right one place in four bits: the paper's ROR4(b, 1).
pub fn ror4(b: u8) -> u8
    ensures { result ≡ ror 4 1 (b % 16) }
{
    let n = b & 15;
    ((n << 3) | (n >> 1)) & 15
}

// 8a mod 16, as q has it.
pub fn times8(a: u8) -> u8
    ensures { result ≡ 8 * a % 16 }
{
    (a << 3) & 15
}

// x rotated left by n places, n taken modulo 32.
pub fn rotate_left(x: u32, n: u32) -> u32
    ensures { result ≡ rol 32 (n % 32) x }
{
    x.rotate_left(n)
}

// x rotated right by n places, n taken modulo 32.
pub fn rotate_right(x: u32, n: u32) -> u32
    ensures { result ≡ ror 32 (n % 32) x }
{
    x.rotate_right(n)
}

// The sum modulo 2^32.
pub fn wrapping_add(x: u32, y: u32) -> u32
    ensures { result ≡ sum32 x y }
{
    x.wrapping_add(y)
}

// Byte y of a word, the lowest first; 0 past the fourth. By a shift and a remainder, as document 01 has
// it; the edit wrong_byte shifts by 7y.
pub fn byte_of(x: u32, y: u32) -> u8
    ensures { result ≡ byte_of x y }
{
    if y > 3 {
        return 0;
    }
    ((x >> (8 * y)) % 256) as u8
}

// Four bytes as a word, the first lowest.
pub fn from_le_bytes(b: [u8; 4]) -> u32
    ensures { result ≡ word_of b }
{
    u32::from_le_bytes(b)
}

// A word as four bytes, the lowest first.
pub fn to_le_bytes(x: u32) -> [u8; 4]
    ensures { result ≡ bytes_of x }
{
    x.to_le_bytes()
}
