// Makes a service sheet: reads session records from standard input, a line each, and prints their sheet. The lines are described in
// docs/SHEET.md.
#![tactic(auto)]

mod stopped;
mod visit;
mod words;

use std::io;
use std::io::{Read, Write};
use std::process::ExitCode;
use stopped::Stopped;
use visit::Visit;

// Prints the sheet as the bytes that it is, or the number of its refusal.
fn print_sheet(rt: &HostRuntime, visit: &Visit) -> io::Result<()> {
    let mut out = vec![in rt.alloc(); 0; visit.room()]?;
    match service_sheet::write(visit.records(), &mut out) {
        Ok(length) => rt.stdout().write_all(&out[..length]),
        Err(refusal) => {
            let number = refusal.number();
            println!(rt; "refused {number}")
        }
    }
}

// Nothing is printed before all lines are read.
fn run(rt: &HostRuntime) -> Result<(), Stopped> {
    let mut text = Vec::new(rt.alloc());
    rt.stdin().read_to_end(&mut text)?;
    let visit = Visit::read(rt.alloc(), &text)?;
    Ok(print_sheet(rt, &visit)?)
}

fn main(rt: HostRuntime) -> ExitCode {
    match run(&rt) {
        Ok(()) => ExitCode::SUCCESS,
        Err(stopped) => {
            let _ = eprintln!(rt; "{stopped}");
            ExitCode::FAILURE
        }
    }
}
