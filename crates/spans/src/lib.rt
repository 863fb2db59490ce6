// Bytes moved between slices: copied, set to one value, xored, and a block taken by value.
#![tactic(auto)]

ghost use Rattle.std.specs.Prelude.{◌≡◌, min, length, take, replicate};
ghost use Rattle.spans.specs.Bytes.{xor_bytes};
ghost use Rattle.spans.specs.Parts.{splice};

// The smaller of two numbers.
pub fn least(a: usize, b: usize) -> usize
    ensures { result ≡ min a b }
{
    a.min(b)
}

// The first bytes of dst become those of src, as many as both have.
pub fn copy(dst: &mut [u8], src: &[u8])
    ensures { dst.new ≡ splice 0 (take (length dst.old) src.now) dst.old }
{
    let n = least(dst.len(), src.len());
    dst[..n].copy_from_slice(&src[..n]);
}

// The first bytes of dst are xored with those of src, as many as both have. By places, since after a loop over `iter_mut` and another slice
// a proof knows only the length.
pub fn xor(dst: &mut [u8], src: &[u8])
    ensures { dst.new ≡ splice 0 (xor_bytes dst.old src.now) dst.old }
{
    let n = least(dst.len(), src.len());
    for i in 0..n {
        dst[i] ^= src[i];
    }
}

// Every byte of dst becomes v.
pub fn fill(dst: &mut [u8], v: u8)
    ensures { dst.new ≡ replicate (length dst.old) v }
{
    dst.fill(v);
}

// The first 16 bytes of src by value, zeros where it has fewer: a `TryFrom` would refuse those.
pub fn block(src: &[u8]) -> [u8; 16]
    ensures { result ≡ splice 0 (take 16 src.now) (replicate 16 0) }
{
    let mut b = [0u8; 16];
    copy(&mut b, src);
    b
}
