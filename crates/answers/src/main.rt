// Answers the questions of standard input, a line each with a block and a key in hex: the block enciphered and deciphered, or the refusal's number.
#![tactic(auto)]

use hex::FromHexError;
use std::alloc::Global;
use std::io;
use twofish::{Refusal, Twofish};

// The first block enciphered and the second deciphered, each where it lies.
fn turned(key: &[u8], forth: &mut [u8], back: &mut [u8]) -> Result<(), Refusal> {
    let t = Twofish::new(key)?;
    block::encipher(t, forth)?;
    block::decipher(t, back)
}

// The answer to a line: nothing, where it is empty or a comment. A line with a block alone asks with a key of no bytes.
fn answered(alloc: Global, line: &str) -> Result<Option<String>, FromHexError> {
    if line.is_empty() || line.starts_with('#') {
        return Ok(None);
    }
    let mut parts = line.split_whitespace();
    let (Some(block), key, None) = (parts.next(), parts.next().unwrap_or(""), parts.next()) else {
        return Err(FromHexError::InvalidStringLength);
    };
    let key = hex::decode(alloc, key)?;
    let mut forth = hex::decode(alloc, block)?;
    let mut back = hex::decode(alloc, block)?;
    let answer = match turned(&key, &mut forth, &mut back) {
        Ok(()) => {
            let forth = hex::encode(alloc, &forth)?;
            let back = hex::encode(alloc, &back)?;
            format!(in alloc; "{forth} {back}")?
        }
        Err(refusal) => format!(in alloc; "refused: {}", u32::from(refusal))?,
    };
    Ok(Some(answer))
}

fn main(rt: HostRuntime) -> io::Result<()> {
    for line in rt.lines(rt.alloc()) {
        let line = line?;
        match answered(rt.alloc(), line.as_str()) {
            Ok(None) => {}
            Ok(Some(answer)) => println!(rt; "{answer}")?,
            Err(error) => println!(rt; "no question: {line}: {error}")?,
        }
    }
    Ok(())
}

#[cfg(test)]
mod tests {
    use super::*;

    #[test]
    fn a_line_with_three_parts_is_none(rt: HostRuntime) {
        assert_eq!(rt;
            answered(rt.alloc(), "00 00 00"),
            Err(FromHexError::InvalidStringLength)
        );
    }
}
