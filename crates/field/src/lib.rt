// Products in GF(2^8), and the paper's matrices MDS and RS over them.
#![tactic(auto)]

ghost use Rattle.std.specs.Prelude.{◌≡◌, ◌+◌, [], ◌∷◌};
ghost use Rattle.words.specs.Word.{word_of};
ghost use Rattle.field.specs.Field.{mul};
ghost use Rattle.field.specs.Matrix.{mds_column, mds_times, rs_times, row_times, mds_poly, rs_poly};

// x^8 + x^6 + x^5 + x^3 + 1 without its top digit.
pub const MDS_POLY: u8 = 0x69;

// x^8 + x^6 + x^3 + x^2 + 1 without its top digit.
pub const RS_POLY: u8 = 0x4d;

// The paper's matrix RS.
pub const RS: [[u8; 8]; 4] = [
    [0x01, 0xa4, 0x55, 0x87, 0x5a, 0x58, 0xdb, 0x9e],
    [0xa4, 0x56, 0x82, 0xf3, 0x1e, 0xc6, 0x68, 0xe5],
    [0x02, 0xa1, 0xfc, 0xc1, 0x47, 0xae, 0x3d, 0x19],
    [0xa4, 0x55, 0x87, 0x5a, 0x58, 0xdb, 0x9e, 0x03],
];

// x times b modulo x^8 + p: where the top digit of b is 1, the doubling drops it and p is added.
pub fn double(b: u8, p: u8) -> u8
    ensures { result ≡ mul (256 + p) 2 b }
{
    if b & 0x80 == 0x80 {
        (b << 1) ^ p
    } else {
        b << 1
    }
}

// The product of a and b modulo x^8 + p, by the digits of a from the lowest on.
pub fn gf_mult(mut a: u8, mut b: u8, p: u8) -> u8
    ensures { result ≡ mul (256 + p) a b }
{
    let mut result: u8 = 0;
    for _ in 0..8u32 {
        if a & 1 == 1 {
            result ^= b;
        }
        a >>= 1;
        b = double(b, p);
    }
    result
}

// The products of x by 5b and by ef modulo v, by seven doublings: 5b is 01 + 02 + 08 + 10 + 40, and ef all digits but 10.
fn by_5b_and_ef(x: u8) -> [u8; 2]
    ensures { result ≡ mul mds_poly x 0x5b ∷ mul mds_poly x 0xef ∷ [] }
{
    let x2 = double(x, MDS_POLY);
    let x4 = double(x2, MDS_POLY);
    let x8 = double(x4, MDS_POLY);
    let x10 = double(x8, MDS_POLY);
    let x20 = double(x10, MDS_POLY);
    let x40 = double(x20, MDS_POLY);
    let x80 = double(x40, MDS_POLY);
    let both = x ^ x2 ^ x8 ^ x40;
    [both ^ x10, both ^ x4 ^ x20 ^ x80]
}

// A column of MDS times x, as a word; 0 past the fourth column.
pub fn mds_column_mult(x: u8, column: usize) -> u32
    ensures { result ≡ mds_column column x }
{
    let [x5b, xef] = by_5b_and_ef(x);
    match column {
        0 => words::from_le_bytes([x, x5b, xef, xef]),
        1 => words::from_le_bytes([xef, xef, x5b, x]),
        2 => words::from_le_bytes([x5b, xef, x, xef]),
        3 => words::from_le_bytes([x5b, x, xef, x5b]),
        _ => 0,
    }
}

// MDS times four bytes, as a word. Apart from the loop of g, which makes a byte at each turn.
pub fn mds_mult(y: [u8; 4]) -> u32
    ensures { result ≡ word_of (mds_times y) }
{
    let mut z = 0;
    for (i, &b) in y.iter().enumerate() {
        z ^= mds_column_mult(b, i);
    }
    z
}

// A row of eight entries times m. Missing bytes are taken as 0, and those past the eighth are not looked at.
fn rs_row(row: &[u8; 8], m: &[u8]) -> u8
    ensures { result ≡ row_times rs_poly (row.now ∷ []) 0 m.now 8 }
{
    let mut out = 0;
    for (&b, &e) in m.iter().zip(row) {
        out ^= gf_mult(b, e, RS_POLY);
    }
    out
}

// RS times eight key bytes: four S bytes. Missing bytes are taken as 0, and those past the eighth are not looked at. Row by row: of a `map` over
// the rows the proof doesn't close.
pub fn rs_mult(m: &[u8]) -> [u8; 4]
    ensures { result ≡ rs_times m.now }
{
    [
        rs_row(&RS[0], m),
        rs_row(&RS[1], m),
        rs_row(&RS[2], m),
        rs_row(&RS[3], m),
    ]
}
