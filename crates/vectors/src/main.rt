// Runs the vectors of standard input, a line each with key, plain block and cipher block in hex, and counts those that agree.
#![tactic(auto)]

use hex::FromHexError;
use std::alloc::Global;
use std::io;
use twofish::Twofish;

// Of the vectors of one key size, how many there were and how many agreed.
#[derive(Clone, Copy)]
struct Tally {
    lines: u32,
    agreed: u32,
}

impl Tally {
    const NONE: Tally = Tally {
        lines: 0,
        agreed: 0,
    };

    fn with(self, agreed: bool) -> Tally {
        Tally {
            lines: self.lines.saturating_add(1),
            agreed: self.agreed.saturating_add(u32::from(agreed)),
        }
    }
}

// Whether the plain block becomes the cipher block under the key, and the cipher block the plain one.
fn agrees(key: &[u8], plain: &[u8], cipher: &[u8]) -> bool {
    let Ok(t) = Twofish::new(key) else {
        return false;
    };
    let mut forth = spans::block(plain);
    let mut back = spans::block(cipher);
    block::encipher(t, &mut forth).is_ok()
        && block::decipher(t, &mut back).is_ok()
        && forth.as_slice() == cipher
        && back.as_slice() == plain
}

// What a line says: nothing, where it is empty or a comment, or the key's length and whether the vector agrees.
fn judged(alloc: Global, line: &str) -> Result<Option<(usize, bool)>, FromHexError> {
    if line.is_empty() || line.starts_with('#') {
        return Ok(None);
    }
    let mut parts = line.split_whitespace();
    let (Some(key), Some(plain), Some(cipher), None) = (
        parts.next(),
        parts.next(),
        parts.next(),
        parts.next(),
    ) else {
        return Err(FromHexError::InvalidStringLength);
    };
    let key = hex::decode(alloc, key)?;
    let plain = hex::decode(alloc, plain)?;
    let cipher = hex::decode(alloc, cipher)?;
    Ok(Some((key.len(), agrees(&key, &plain, &cipher))))
}

fn main(rt: HostRuntime) -> io::Result<()> {
    let mut small = Tally::NONE;
    let mut middle = Tally::NONE;
    let mut large = Tally::NONE;
    let mut all = Tally::NONE;
    for line in rt.lines(rt.alloc()) {
        let line = line?;
        match judged(rt.alloc(), line.as_str()) {
            Ok(None) => {}
            Ok(Some((size, agreed))) => {
                match size {
                    16 => small = small.with(agreed),
                    24 => middle = middle.with(agreed),
                    32 => large = large.with(agreed),
                    _ => {}
                }
                all = all.with(agreed);
            }
            Err(error) => {
                println!(rt; "no vector: {line}: {error}")?;
                all = all.with(false);
            }
        }
    }
    println!(rt; "128-bit keys: {} of {}", small.agreed, small.lines)?;
    println!(rt; "192-bit keys: {} of {}", middle.agreed, middle.lines)?;
    println!(rt; "256-bit keys: {} of {}", large.agreed, large.lines)?;
    println!(rt; "vectors: {} of {}", all.agreed, all.lines)
}

#[cfg(test)]
mod tests {
    use super::*;

    const KEY: &str = "00000000000000000000000000000000";

    #[test]
    fn a_right_vector_agrees(rt: HostRuntime) {
        let line =
            "00000000000000000000000000000000 00000000000000000000000000000000 9F589F5CF6122C32B6BFEC2F2AE8C35A";
        assert_eq!(rt; judged(rt.alloc(), line), Ok(Some((16, true))));
    }

    #[test]
    fn a_wrong_vector_does_not(rt: HostRuntime) {
        let line =
            "00000000000000000000000000000000 00000000000000000000000000000000 9F589F5CF6122C32B6BFEC2F2AE8C35B";
        assert_eq!(rt; judged(rt.alloc(), line), Ok(Some((16, false))));
    }

    #[test]
    fn a_line_with_two_parts_is_refused(rt: HostRuntime) {
        assert_eq!(rt;
            judged(rt.alloc(), KEY),
            Err(FromHexError::InvalidStringLength)
        );
    }
}
