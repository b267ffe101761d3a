// Explains captured frames: reads lines of hexadecimal bytes, and prints what each frame is or what is wrong with it.
#![tactic(auto)]

mod explain;

use explain::explain;
use std::io;
use std::io::{BufRead, BufReader};

// Not `trim_ascii`, which drops form feeds too: a line of form feeds is not empty.
fn trimmed(mut line: &[u8]) -> &[u8] {
    while let [b' ' | b'\t' | b'\r', rest @ ..] = line {
        line = rest;
    }
    while let [rest @ .., b' ' | b'\t' | b'\r'] = line {
        line = rest;
    }
    line
}

fn explain_digits(rt: &HostRuntime, number: u64, digits: &[u8]) -> io::Result<()> {
    match hex_text::decode(rt.alloc(), digits) {
        Ok(bytes) => explain(rt, number, &bytes),
        Err(error) => println!(rt; "line {number} is {error}"),
    }
}

// Skips empty lines and comments. A dash stands for a frame of no bytes.
fn explain_line(rt: &HostRuntime, number: u64, line: &[u8]) -> io::Result<()> {
    match trimmed(line) {
        [] | [b'#', ..] => Ok(()),
        [b'-'] => explain(rt, number, &[]),
        _ => explain_digits(rt, number, line),
    }
}

fn main(rt: HostRuntime) -> io::Result<()> {
    let lines = BufReader::new(rt.alloc(), rt.stdin())?.split(rt.alloc(), b'\n');
    for (number, line) in (1..).zip(lines) {
        explain_line(&rt, number, &line?)?;
    }
    Ok(())
}
