// Lists the image of each case beside it, under the case's name.
#![tactic(auto)]

use std::io::{BufReader, BufWriter, Write};
use std::{fs, io};

const CASES: [&str; 7] = [
    "empty", "short", "alone", "whole", "extra", "tail", "places",
];

fn main(rt: HostRuntime) -> io::Result<()> {
    let mut output = BufWriter::new(rt.alloc(), io::writer(&rt))?;
    for name in CASES {
        let mut input = BufReader::new(rt.alloc(), fs::open(&rt, name)?)?;
        writeln!(output, "{name}:")?;
        listing::list(&mut input, &mut output)?;
    }
    output.flush()
}
