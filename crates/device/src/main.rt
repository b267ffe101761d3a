// A device with its main loop, over the board of an example. A device of your own takes over `links`, `device`, `advice` and the trait
// in `board`.
#![tactic(auto)]

mod advice;
mod board;
mod day;
mod device;
mod example;
mod links;

use day::DAY;
use example::Example;
use links::serve;
use nfc_sec::suites::KeyedSuite;
use std::io;

// The installer gave both devices one root.
const ROOT: [u8; 16] = *b"bath 3, pump two";

fn main(rt: HostRuntime) -> io::Result<()> {
    let mut board = Example::new(&rt, &DAY);
    let (suite, done) = serve(&mut board, KeyedSuite::new(ROOT));
    let _root = suite.close();
    done
}
