// The two block directions: g over the S words, the rounds, and a block of bytes enciphered or deciphered where it lies.
#![tactic(auto)]

ghost use Rattle.std.specs.Prelude.{◌≡◌, ◌+◌, ◌*◌, ◌<◌, ◌≤◌, eqb, length, MatchResult, cond};
ghost use Rattle.words.specs.Word.{bytes_of};
ghost use Rattle.spans.specs.Bytes.{Bytes};
ghost use Rattle.spans.specs.Parts.{splice};
ghost use Rattle.twofish.specs.Lists.{word_at};
ghost use Rattle.twofish.specs.H.{permuted_at, y};
ghost use Rattle.twofish.specs.Answers.{answer, answered};
ghost use Rattle.twofish.specs.declared.Refusal.TheVariants.{Start, BlockLength};
ghost use Rattle.block.specs.Rounds.{f₀, f₁, round, unround, rounds, unrounds, keyed, swapped, enciphered_words, deciphered_words};
ghost use Rattle.block.specs.Block.{s_list, s_words, g_of, keys_of, words_of, block_of, enciphered, deciphered, block_number};

use twofish::{Refusal, Twofish};

// The four words of a block.
#[derive(Clone, Copy)]
pub struct Words {
    pub a: u32,
    pub b: u32,
    pub c: u32,
    pub d: u32,
}

impl Words {
    // The two halves in each other's place.
    fn swapped(self) -> Words
        ensures { result ≡ swapped self }
    {
        Words {
            a: self.c,
            b: self.d,
            c: self.a,
            d: self.b,
        }
    }
}

// Word i of a block: the library's conversion at four places.
fn word_at(b: &[u8; 16], i: usize) -> u32
    requires { i < 4 }
    ensures { result ≡ word_at b.now i }
{
    let j = 4 * i;
    words::from_le_bytes([b[j], b[j + 1], b[j + 2], b[j + 3]])
}

// A word put in the place of word i.
fn put_word(b: &mut [u8; 16], i: usize, x: u32)
    requires { i < 4 }
    ensures { b.new ≡ splice (4 * i) (bytes_of x) b.old }
{
    let j = 4 * i;
    b[j..j + 4].copy_from_slice(&words::to_le_bytes(x));
}

impl TryFrom<&[u8]> for Words {
    type Error = Refusal;

    ghost try_from_gives = { λ l r. MatchResult r (λ w. (length l.now ≡ 16) × (w ≡ words_of l.now)) (λ e. ¬ (length l.now ≡ 16) × (e ≡ BlockLength)) };

    fn try_from(l: &[u8]) -> Result<Words, Refusal> {
        let Ok(b) = <&[u8; 16]>::try_from(l) else {
            return Err(Refusal::BlockLength);
        };
        Ok(Words {
            a: word_at(b, 0),
            b: word_at(b, 1),
            c: word_at(b, 2),
            d: word_at(b, 3),
        })
    }
}

impl From<Words> for [u8; 16] {
    ghost from_gives = { λ w b. b ≡ block_of w };

    fn from(w: Words) -> [u8; 16] {
        let mut b = [0; 16];
        put_word(&mut b, 0, w.a);
        put_word(&mut b, 1, w.b);
        put_word(&mut b, 2, w.c);
        put_word(&mut b, 3, w.d);
        b
    }
}

// A schedule that the block directions take. That its S bytes are bytes is said, since a proof knows it only of those that are read.
#[derive(Drop)]
struct Cipher {
    t: Twofish,
    ghost accepted: { t.start ≤ 2 },
    ghost bytes: { Bytes 16 t.s },
}

impl TryFrom<Twofish> for Cipher {
    type Error = Refusal;

    ghost try_from_gives = { λ t r. MatchResult r (λ cipher. cipher.t ≡ t) (λ e. (2 < t.start) × (e ≡ Start)) };

    fn try_from(t: Twofish) -> Result<Cipher, Refusal> {
        if t.start > 2 {
            return Err(Refusal::Start);
        }
        Ok(Cipher { t })
    }
}

impl Cipher {
    // Byte j of x through its permutations, with the S bytes added between them.
    fn g_column(&self, j: usize, x: u32) -> u8
        requires { j < 4 }
        ensures { result ≡ permuted_at 4 (y (s_list self.now.t.s self.now.t.start) x 0 (s_words self.now.t.start)) j }
    {
        let start = self.t.start as usize;
        let mut v = sbox::permuted_at(start, j, words::byte_of(x, j as u32));
        for z in start + 1..5 {
            v ^= self.t.s[4 * (z - start - 1) + j];
            v = sbox::permuted_at(z, j, v);
        }
        v
    }

    // The paper's g: h over the S words, column by column of MDS. Apart from `field::mds_mult`, so that it can be held beside the crate's loop.
    fn g_func(&self, x: u32) -> u32
        ensures { result ≡ g_of self.now.t x }
    {
        let mut result: u32 = 0;
        for j in 0..4 {
            result ^= field::mds_column_mult(self.g_column(j, x), j);
        }
        result
    }

    // F0 and F1 of a round with subkeys k0 and k1.
    fn f_func(&self, k0: u32, k1: u32, r0: u32, r1: u32) -> (u32, u32)
        ensures first { result.0 ≡ f₀ (g_of self.now.t) k0 r0 r1 }
        ensures second { result.1 ≡ f₁ (g_of self.now.t) k1 r0 r1 }
    {
        let t1 = self.g_func(words::rotate_left(r1, 8));
        let t0 = words::wrapping_add(self.g_func(r0), t1);
        let t2 = words::wrapping_add(t1, t0);
        (words::wrapping_add(t0, k0), words::wrapping_add(t2, k1))
    }

    // A round with subkeys k and k + 1.
    fn round(&self, k: usize, w: Words) -> Words
        requires { k < 39 }
        ensures { result ≡ round (g_of self.now.t) (keys_of self.now.t k) (keys_of self.now.t (k + 1)) w }
    {
        let (f0, f1) = self.f_func(self.t.k[k], self.t.k[k + 1], w.a, w.b);
        Words {
            a: words::rotate_right(w.c ^ f0, 1),
            b: words::rotate_left(w.d, 1) ^ f1,
            c: w.a,
            d: w.b,
        }
    }

    // A round undone.
    fn unround(&self, k: usize, w: Words) -> Words
        requires { k < 39 }
        ensures { result ≡ unround (g_of self.now.t) (keys_of self.now.t k) (keys_of self.now.t (k + 1)) w }
    {
        let (f0, f1) = self.f_func(self.t.k[k], self.t.k[k + 1], w.c, w.d);
        Words {
            a: w.c,
            b: w.d,
            c: words::rotate_left(w.a, 1) ^ f0,
            d: words::rotate_right(w.b ^ f1, 1),
        }
    }

    // Subkeys i to i + 3 added to four words.
    fn keyed(&self, i: usize, w: Words) -> Words
        requires { i < 37 }
        ensures { result ≡ keyed (keys_of self.now.t) i w }
    {
        let k = &self.t.k;
        Words {
            a: w.a ^ k[i],
            b: w.b ^ k[i + 1],
            c: w.c ^ k[i + 2],
            d: w.d ^ k[i + 3],
        }
    }

    // The sixteen rounds, two to a turn.
    fn rounds(&self, w: Words) -> Words
        ensures { result ≡ rounds (g_of self.now.t) (keys_of self.now.t) 16 w }
    {
        let mut p = w;
        for r in 0..8 {
            let k = 4 * r + 8;
            p = self.round(k + 2, self.round(k, p));
        }
        p
    }

    // The sixteen rounds undone, two to a turn, the last first. Apart from `rounds`, since a loop over both would be handed the round and its
    // order.
    fn unrounds(&self, w: Words) -> Words
        ensures { result ≡ unrounds (g_of self.now.t) (keys_of self.now.t) 16 w }
    {
        let mut c = w;
        for r in (0..8).rev() {
            let k = 4 * r + 8;
            c = self.unround(k, self.unround(k + 2, c));
        }
        c
    }
}

// One of the two directions, by what it makes of the four words of a block over g and the subkeys.
trait Direction {
    ghost use Rattle.std.specs.Prelude.{ℕ};
    ghost use Rattle.block.specs.declared.Words.{Words};

    ghost turned: { (ℕ → ℕ) → (ℕ → ℕ) → Words → Words };

    fn turn(cipher: &Cipher, w: Words) -> Words
        ensures { result ≡ turned (g_of cipher.now.t) (keys_of cipher.now.t) w };
}

// Forward, from plain to cipher.
struct Enciphering;

impl Direction for Enciphering {
    ghost turned = { enciphered_words };

    // Whitening, the rounds, the last swap undone, whitening.
    fn turn(cipher: &Cipher, p: Words) -> Words {
        let v = cipher.rounds(cipher.keyed(0, p));
        cipher.keyed(4, v.swapped())
    }
}

// Back.
struct Deciphering;

impl Direction for Deciphering {
    ghost turned = { deciphered_words };

    // The same undone, the last first.
    fn turn(cipher: &Cipher, c: Words) -> Words {
        let v = cipher.unrounds(cipher.keyed(4, c).swapped());
        cipher.keyed(0, v)
    }
}

// A block turned where it lies in direction D: refused by `Start`, then by `BlockLength`, else turned.
fn turn_block<D: Direction>(t: Twofish, block: &mut [u8]) -> Result<(), Refusal>
    ensures outcome { answered result ≡ answer (block_number t block.old) 0 }
    ensures block { block.new ≡ cond (eqb (block_number t block.old) 0) (block_of (D.turned (g_of t) (keys_of t) (words_of block.old))) block.old }
{
    // Before the schedule is copied, so that a block of another length costs no copy; refusal 2 comes first all the same.
    let w = Words::try_from(&*block);
    let cipher = Cipher::try_from(t)?;
    let w = w?;
    block.copy_from_slice(&<[u8; 16]>::from(D::turn(&cipher, w)));
    Ok(())
}

// The block enciphered where it lies; a refusal leaves every byte.
pub fn encipher(t: Twofish, block: &mut [u8]) -> Result<(), Refusal>
    ensures outcome { answered result ≡ answer (block_number t block.old) 0 }
    ensures block { block.new ≡ cond (eqb (block_number t block.old) 0) (enciphered t block.old) block.old }
{
    turn_block::<Enciphering>(t, block)
}

// The block deciphered where it lies; a refusal leaves every byte.
pub fn decipher(t: Twofish, block: &mut [u8]) -> Result<(), Refusal>
    ensures outcome { answered result ≡ answer (block_number t block.old) 0 }
    ensures block { block.new ≡ cond (eqb (block_number t block.old) 0) (deciphered t block.old) block.old }
{
    turn_block::<Deciphering>(t, block)
}
