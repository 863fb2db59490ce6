// The permutations q0 and q1 of the bytes, from their rows of nibbles, and the order in which h takes them.
#![tactic(auto)]

ghost use Rattle.std.specs.Prelude.{◌≡◌, ◌%◌, ◌<◌};
ghost use Rattle.field.specs.Matrix.{entry};
ghost use Rattle.sbox.specs.Q.{mixed, row, q_of, q, qbox, qord};

// Two permutations of four rows of sixteen nibbles each, the paper's t0 to t3 for q0 and for q1.
static QBOX: [[[u8; 16]; 4]; 2] = [
    [
        [8, 1, 7, 13, 6, 15, 3, 2, 0, 11, 5, 9, 14, 12, 10, 4],
        [14, 12, 11, 8, 1, 2, 3, 5, 15, 4, 10, 6, 7, 0, 9, 13],
        [11, 10, 5, 14, 6, 13, 9, 0, 12, 8, 15, 3, 2, 4, 7, 1],
        [13, 7, 15, 4, 1, 2, 6, 14, 9, 11, 3, 0, 8, 5, 12, 10],
    ],
    [
        [2, 8, 11, 13, 15, 7, 6, 14, 3, 1, 9, 4, 0, 10, 12, 5],
        [1, 14, 2, 11, 4, 12, 3, 7, 6, 13, 10, 5, 15, 9, 0, 8],
        [4, 12, 7, 5, 1, 6, 9, 10, 0, 14, 13, 8, 2, 11, 3, 15],
        [11, 9, 5, 1, 12, 3, 13, 14, 6, 4, 7, 15, 2, 0, 8, 10],
    ],
];

// Which of q0 and q1 each byte of h goes through, a row a byte: numbers, which index QBOX and which `order` promises.
static QORD: [[usize; 5]; 4] = [
    [1, 1, 0, 0, 1],
    [0, 1, 1, 0, 0],
    [0, 0, 0, 1, 1],
    [1, 0, 1, 1, 0],
];

// The paper's rows as a value, such as `sbox` takes.
pub fn rows() -> [[[u8; 16]; 4]; 2]
    ensures { result ≡ qbox }
{
    QBOX
}

// The order of q0 and q1 in h as a value: a table of its own beside `rows`, with a promise of its own.
pub fn order() -> [[usize; 5]; 4]
    ensures { result ≡ qord }
{
    QORD
}

// Entry n of row j of permutation i, as a nibble. i is a number, as in `sbox`.
fn entry(t: &[[[u8; 16]; 4]; 2], i: usize, j: usize, n: u8) -> u8
    requires { (i < 2) × (j < 4) × (n < 16) }
    ensures { (result ≡ row t.now i j n) × (result < 16) }
{
    t[i][j][n as usize] & 15
}

// The second nibble of a step of q: a, b rotated right one place, and 8a mod 16, added.
fn mix(a: u8, b: u8) -> u8
    requires { (a < 16) × (b < 16) }
    ensures { (result ≡ mixed a b) × (result < 16) }
{
    a ^ words::ror4(b) ^ words::times8(a)
}

// q of x over the rows t: q0 where i is even, q1 where it is odd. i is a number, since the promise is for any.
pub fn sbox(t: &[[[u8; 16]; 4]; 2], i: usize, x: u8) -> u8
    ensures { result ≡ q_of t.now i x }
{
    let p = i % 2;
    let a0 = x >> 4;
    let b0 = x & 15;
    let a1 = a0 ^ b0;
    let b1 = mix(a0, b0);
    let a2 = entry(t, p, 0, a1);
    let b2 = entry(t, p, 1, b1);
    let a3 = a2 ^ b2;
    let b3 = mix(a2, b2);
    let a4 = entry(t, p, 2, a3);
    let b4 = entry(t, p, 3, b3);
    (b4 << 4) + a4
}

// Byte x in place j at step z of h, through q0 or q1 as the order has it; past the order's end through q0. Inlined, since its callers know z
// or j.
#[inline]
pub fn permuted_at(z: usize, j: usize, x: u8) -> u8
    ensures { result ≡ q (entry qord j z) x }
{
    let i = if j < 4 && z < 5 { QORD[j][z] } else { 0 };
    sbox(&QBOX, i, x)
}
