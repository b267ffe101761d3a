// The links of a device, one after the other, over one suite.
use super::board::{Board, Link};
use super::device::Device;
use nfc_sec::suites::Suite;
use nfc_sec::{Agreed, Entity, Offered, Refused};

// An activation makes one entity. Whatever happens on the link, it is put away at the end, and the suite is there for the next.
fn serve_link<B: Board, S: Suite>(
    board: &mut B,
    agreed: Agreed,
    suite: S,
) -> (S, Result<(), B::Error>) {
    let mut device = Device::new(board, Entity::new(agreed, suite));
    let done = device.run();
    let (suite, _destroyed) = device.put_away();
    (suite, done)
}

// Serves the links of a board until it has no more. What owns a suite or an entity cannot leave by `?`.
pub(super) fn serve<B: Board, S: Suite>(board: &mut B, mut suite: S) -> (S, Result<(), B::Error>) {
    for _ in 0..u64::MAX {
        let Link { own, peer } = match board.next_link() {
            Ok(Some(link)) => link,
            Ok(None) => break,
            Err(error) => return (suite, Err(error)),
        };
        let done = match Offered::new(own).agree(peer) {
            Ok(agreed) => {
                let (back, done) = serve_link(board, agreed, suite);
                suite = back;
                done
            }
            Err(Refused { refusal, offer: _ }) => board.unsupported(refusal),
        };
        if done.is_err() {
            return (suite, done);
        }
    }
    (suite, Ok(()))
}
