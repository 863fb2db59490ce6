// Lists the records of a sealed image on standard input.
#![tactic(auto)]

use std::io;
use std::io::{BufReader, BufWriter, Write};

fn main(rt: HostRuntime) -> io::Result<()> {
    let mut input = BufReader::new(rt.alloc(), rt.reader())?;
    let mut output = BufWriter::new(rt.alloc(), io::writer(&rt))?;
    listing::list(&mut input, &mut output)?;
    output.flush()
}
