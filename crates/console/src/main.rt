// Two peers by hand: reads a script of calls from standard input, and prints one line for each. The script is described in docs/CONSOLE.md.
#![tactic(auto)]

mod call;
mod peer;
mod printer;
mod script;
mod setup;
mod stack;
mod stopped;
mod turns;
mod words;

use bench_suite::BenchKind;
use keyed_suite::KeyedKind;
use script::Script;
use setup::Kind;
use std::io::Read;
use std::process::ExitCode;
use stopped::Stopped;
use turns::play_over;

// The lines before one that cannot be read are played too.
fn run(rt: &HostRuntime) -> Result<(), Stopped> {
    let mut text = Vec::new(rt.alloc());
    rt.stdin().read_to_end(&mut text)?;
    let mut script = Script::new(rt.alloc());
    let ended = script.read(rt.alloc(), &text);
    if let Some(setup) = script.setup() {
        match setup.kind {
            Kind::Bench => play_over::<BenchKind>(rt, setup, script.steps())?,
            Kind::Keyed => play_over::<KeyedKind>(rt, setup, script.steps())?,
        }
    }
    ended
}

fn main(rt: HostRuntime) -> ExitCode {
    match run(&rt) {
        Ok(()) => ExitCode::SUCCESS,
        Err(stopped) => {
            let _ = eprintln!(rt; "{stopped}");
            ExitCode::FAILURE
        }
    }
}
