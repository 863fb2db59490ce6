// The cipher's type with its constants, and key set-up: h over the key's words, the subkeys and the S bytes.
#![tactic(auto)]

ghost use Rattle.std.specs.Prelude.{◌≡◌, ◌++◌, ◌+◌, ◌-◌, ◌*◌, ◌<◌, ◌≤◌, length, replicate};
ghost use Rattle.words.specs.Word.{bytes_of};
ghost use Rattle.spans.specs.Bytes.{Bytes, xor_bytes};
ghost use Rattle.std.specs.List.{concat};
ghost use Rattle.twofish.specs.Lists.{listed, word_at};
ghost use Rattle.twofish.specs.H.{through, h};
ghost use Rattle.twofish.specs.Half.{first_of};
ghost use Rattle.twofish.specs.Schedule.{every_other, s_bytes, k_word, schedule, taken, size, units, set_up, handed_back};
ghost use Rattle.twofish.specs.Answers.{nowhere, told, refusal_number, refusal_location, refused_answer, answered, counted};

// The bank and the page that a record is of.
#[derive(Clone, Copy, Debug, PartialEq, Eq)]
pub struct Location {
    pub bank: u32,
    pub page: u32,
}

// Why a call is refused.
#[derive(Clone, Copy, Debug, PartialEq, Eq)]
pub enum Refusal {
    // The key is not 1 to 32 bytes.
    KeyLength,
    // The schedule's start is above 2.
    Start,
    // The buffer is not a block of 16 bytes.
    BlockLength,
    // Pages or banks is 0 or above 256.
    Geometry,
    // The image is not as long as its records.
    ImageLength,
    // The bank, page or offset lies outside the geometry.
    Place,
    // The length is 0, above 256 or past the page's end.
    Length,
    // The record's first block deciphers to no place block.
    Record,
    // A patch of a list begins or ends outside the bytes that are lent.
    Outside,
    // A list has more than 64 patches.
    TooMany,
    // The record's first block deciphers to the place block of another place.
    Elsewhere(Location),
}

impl From<Refusal> for u32 {
    ghost from_gives = { λ refusal n. n ≡ refusal_number refusal };

    // Its number, as documents 01 and 02 have it.
    fn from(refusal: Refusal) -> u32 {
        match refusal {
            Refusal::KeyLength => 1,
            Refusal::Start => 2,
            Refusal::BlockLength => 3,
            Refusal::Geometry => 4,
            Refusal::ImageLength => 5,
            Refusal::Place => 6,
            Refusal::Length => 7,
            Refusal::Record => 8,
            Refusal::Outside => 9,
            Refusal::TooMany => 10,
            Refusal::Elsewhere(_) => 11,
        }
    }
}

impl Refusal {
    // The place whose record it is, where the refusal says one; else bank 0 and page 0.
    pub fn location(self) -> Location
        ensures { result ≡ refusal_location self }
    {
        match self {
            Refusal::Elsewhere(location) => location,
            _ => Location { bank: 0, page: 0 },
        }
    }
}

// What a C caller is answered: the number of the refusal, or 0, a count, and the place whose record a refusal found. A struct of numbers, since C has
// no `Result`.
#[repr(C)]
#[derive(Clone, Copy, Debug, PartialEq, Eq)]
pub struct Answer {
    pub number: u32,
    pub count: u32,
    pub bank: u32,
    pub page: u32,
}

impl From<Refusal> for Answer {
    ghost from_gives = { λ refusal answer. answer ≡ refused_answer refusal };

    // A refusal counts nothing.
    fn from(refusal: Refusal) -> Answer {
        let Location { bank, page } = refusal.location();
        Answer {
            number: refusal.into(),
            count: 0,
            bank,
            page,
        }
    }
}

impl Answer {
    // What a call that is done answers.
    fn done(count: u32) -> Answer
        ensures { result ≡ told 0 count nowhere }
    {
        Answer {
            number: 0,
            count,
            bank: 0,
            page: 0,
        }
    }
}

impl From<Result<(), Refusal>> for Answer {
    ghost from_gives = { λ outcome answer. answer ≡ answered outcome };

    fn from(outcome: Result<(), Refusal>) -> Answer {
        match outcome {
            Ok(()) => Answer::done(0),
            Err(refusal) => refusal.into(),
        }
    }
}

impl From<Result<u32, Refusal>> for Answer {
    ghost from_gives = { λ outcome answer. answer ≡ counted outcome };

    fn from(outcome: Result<u32, Refusal>) -> Answer {
        match outcome {
            Ok(count) => Answer::done(count),
            Err(refusal) => refusal.into(),
        }
    }
}

// The schedule: 16 S bytes in key order, 40 subkeys and the start number, which is 0, 1, 2 for 32, 24, 16 key bytes. Start is a number beside the
// S bytes and says how many of them count: document 01 has one record of the three, and one that came from no key may have any start.
#[derive(Clone, Copy)]
pub struct Twofish {
    pub s: [u8; 16],
    pub k: [u32; 40],
    pub start: u32,
}

// The bytes of a key: 8k of them, k at most 4. That they are bytes is said, since a proof knows it only of those that are read.
#[derive(Drop)]
struct Key<'a> {
    m: &'a [u8],
    ghost whole: { Bytes (8 * units m.now) m.now },
    ghost few: { units m.now ≤ 4 },
}

// Whether a key's length is taken: 1 to 32 bytes.
#[tactic(auto, using(std::proofs::lemmas::Bool::Decides::nat_tests), unfolding(crate::specs::Schedule::taken))]
fn taken(n: usize) -> bool
    ensures { result ≡ taken n }
{
    0 < n && n <= 32
}

// The size of a key of n bytes, up to which zeros follow it: the next of 16, 24 and 32.
#[tactic(auto, using(std::proofs::lemmas::Bool::Decides::nat_tests), unfolding(crate::specs::Schedule::size))]
fn size(n: usize) -> usize
    ensures { result ≡ size n }
{
    if n <= 16 {
        16
    } else if n <= 24 {
        24
    } else {
        32
    }
}

// A key of at most 32 bytes with zeros after it, 32 bytes in all.
fn with_zeros(key: &[u8]) -> [u8; 32]
    requires { length key.now ≤ 32 }
    ensures { result ≡ key.now ++ replicate (32 - length key.now) 0 }
{
    let mut m = [0u8; 32];
    m[0..key.len()].copy_from_slice(key);
    m
}

// Every other word of a key: M_0, M_2, .. or M_1, M_3, ..
#[derive(Clone, Copy)]
enum Half {
    Even,
    Odd,
}

impl From<Half> for usize {
    ghost from_gives = { λ half n. (n ≡ first_of half) × (n < 2) };

    // The number of its first word.
    fn from(half: Half) -> usize {
        half as usize
    }
}

// Four bytes, each through its permutation at step z of h.
fn through(z: usize, y: [u8; 4]) -> [u8; 4]
    ensures { result ≡ through z y }
{
    [
        sbox::permuted_at(z, 0, y[0]),
        sbox::permuted_at(z, 1, y[1]),
        sbox::permuted_at(z, 2, y[2]),
        sbox::permuted_at(z, 3, y[3]),
    ]
}

impl Key<'_> {
    // k, the key's length in units of eight bytes.
    fn units(&self) -> usize
        ensures { result ≡ units self.now.m.now }
    {
        self.m.len() / 8
    }

    // The step of h that takes word i of a half in.
    fn step(&self, y: [u8; 4], half: Half, i: usize) -> [u8; 4]
        requires { i < units self.now.m.now }
        ensures { result ≡ xor_bytes (through (3 - i) y) (bytes_of (word_at self.now.m.now (2 * i + first_of half))) }
    {
        let mut y = through(3 - i, y);
        let at = 4 * (2 * i + usize::from(half));
        spans::xor(&mut y, &self.m[at..at + 4]);
        y
    }

    // The paper's h over a half of the words.
    fn h(&self, x: u32, half: Half) -> u32
        ensures { result ≡ h x (every_other self.now.m.now (units self.now.m.now) (first_of half)) }
    {
        let mut y = words::to_le_bytes(x);
        for i in (0..self.units()).rev() {
            // In two steps, since the array that a call answers goes into no variable among its arguments.
            let next = self.step(y, half, i);
            y = next;
        }
        field::mds_mult(through(4, y))
    }

    // The forty subkeys.
    fn subkeys(&self) -> [u32; 40]
        ensures { result ≡ listed (k_word self.now.m.now (units self.now.m.now)) 40 }
    {
        let rho: u32 = 0x01010101;
        let mut ks = [0u32; 40];
        for x in 0..20 {
            let a = self.h(rho * (2 * x), Half::Even);
            let b = words::rotate_left(self.h(rho * (2 * x + 1), Half::Odd), 8);
            let v = words::wrapping_add(a, b);
            let i = (2 * x) as usize;
            ks[i] = v;
            ks[i + 1] = words::rotate_left(words::wrapping_add(v, b), 9);
        }
        ks
    }

    // The S bytes in key order, and zeros after them. By a number, which places the eight key bytes and the four S bytes.
    fn s_bytes(&self) -> [u8; 16]
        ensures { result ≡ concat (listed (s_bytes self.now.m.now) (units self.now.m.now)) ++ replicate (16 - 4 * (units self.now.m.now)) 0 }
    {
        let mut s = [0u8; 16];
        for i in 0..self.units() {
            let four = field::rs_mult(&self.m[8 * i..8 * i + 8]);
            s[4 * i..4 * i + 4].copy_from_slice(&four);
        }
        s
    }
}

impl Twofish {
    // For callers: bytes of a block, subkeys of a schedule, and bytes of a sealed record.
    pub const BLOCK: usize = 16;

    pub const SUBKEYS: usize = 40;

    pub const RECORD: usize = 272;

    // What stands in for the schedule of a key that is refused: every later call with it is refused by 2.
    pub const REFUSED: Twofish = Twofish {
        s: [0; 16],
        k: [0; 40],
        start: 3,
    };

    // The schedule of a key.
    fn key_schedule(key: &Key) -> Twofish
        ensures { result ≡ schedule key.now.m.now (units key.now.m.now) }
    {
        Twofish {
            s: key.s_bytes(),
            k: key.subkeys(),
            start: (4 - key.units()) as u32,
        }
    }

    // Set-up of any bytes as a key: refused unless their length is taken, and else that of the key with zeros up to its size.
    pub fn new(key: &[u8]) -> Result<Twofish, Refusal>
        ensures { handed_back result ≡ set_up key.now }
    {
        if !taken(key.len()) {
            return Err(Refusal::KeyLength);
        }
        let m = with_zeros(key);
        let key = Key {
            m: &m[..size(key.len())],
        };
        Ok(Twofish::key_schedule(&key))
    }
}

#[cfg(test)]
mod tests {
    use super::*;

    #[test]
    fn key_lengths(rt: HostRuntime) {
        let key = [0u8; 33];
        let starts = [
            (0, None),
            (1, Some(2)),
            (13, Some(2)),
            (16, Some(2)),
            (17, Some(1)),
            (24, Some(1)),
            (25, Some(0)),
            (32, Some(0)),
            (33, None),
        ];
        for (n, start) in starts {
            let taken = key.get(..n).and_then(|key| Twofish::new(key).ok());
            assert_eq!(rt; taken.map(|t| t.start), start);
        }
    }
}
