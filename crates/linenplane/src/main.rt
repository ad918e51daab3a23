// Reads scenarios from standard input, does them, and prints what it did.
#![tactic(auto)]

mod args;
mod backends;
mod causes;
mod commands;
mod ends;
mod filterer;
mod filters;
mod printable;
mod questions;
mod scanners;
mod session;
mod world;
mod wrong;

use session::Session;
use std::io;
use std::io::{BufRead, BufReader, BufWriter, Write};

fn main(rt: HostRuntime) -> io::Result<()> {
    let heap = rt.alloc();
    let mut session = Session::new(heap)?;
    let mut output = BufWriter::new(heap, rt.stdout())?;
    let mut out = String::new(heap);
    let lines = BufReader::new(heap, rt.stdin())?.split(heap, b'\n');
    for (number, line) in (1..=u64::MAX).zip(lines) {
        out.clear();
        session.line(number, &line?, &mut out)?;
        output.write_all(out.as_bytes())?;
    }
    output.flush()
}
