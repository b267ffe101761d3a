// A peer with its entity. Each of its calls prints a line.
ghost use Rattle.std.specs.Prelude.{◌≤◌, length, IfOk};

use super::call::{Action, Request};
use super::printer::Printer;
use super::stack::Stack;
use activation::Agreed;
use entity::{Entity, Slip};
use protocol::{Destroyed, Outcome, Refusal};
use std::io;
use suite::Suite;

pub(super) struct Peer<'a, S: Suite> {
    printer: Printer<'a>,
    // None where the activation was refused, and once the entity is put away.
    entity: Option<Entity<S>>,
    // The frame that it wrote last.
    latest: Vec<u8>,
}

// Returns what a call wrote to the front of its buffer: no bytes if it was refused.
fn written(buffer: &[u8], answer: Result<Outcome, Refusal>) -> &[u8]
    requires { IfOk answer (λ o. o.length ≤ length buffer.now) }
{
    match answer {
        Ok(outcome) => &buffer[..outcome.length],
        Err(_refusal) => &[],
    }
}

// Keeps what a call wrote as the latest frame, if it is one.
fn keep(latest: &mut Vec<u8>, request: &Request, wrote: &[u8]) -> io::Result<()> {
    if wrote.is_empty() || !request.writes_frame() {
        return Ok(());
    }
    latest.clear();
    Ok(latest.extend_from_slice(wrote)?)
}

fn put_away<S: Stack>(entity: Entity<S>) -> Destroyed {
    let (suite, destroyed) = entity.put_away();
    suite.take_down();
    destroyed
}

impl<'a, S: Stack> Peer<'a, S> {
    // A peer whose suite has that root, and that many further keys if there is a quota. Without an activation it has no entity.
    pub(super) fn new(
        printer: Printer<'a>,
        activation: Option<Agreed>,
        root: [u8; 16],
        keys: u32,
    ) -> Peer<'a, S> {
        Peer {
            printer,
            entity: activation.map(|agreed| Entity::new(agreed, S::put_up(root, keys))),
            latest: Vec::new(printer.rt.alloc()),
        }
    }

    // Ends the peer: an entity that was not put away by the script is put away now.
    pub(super) fn end(self) {
        let Peer {
            printer: _,
            entity,
            latest: _,
        } = self;
        if let Some(entity) = entity {
            put_away(entity);
        }
    }

    pub(super) fn latest(&self) -> &[u8] {
        &self.latest
    }

    // Does what the script says. `latest` is the frame that the other peer wrote last.
    pub(super) fn play(&mut self, action: &Action, latest: &[u8]) -> io::Result<()> {
        let printer = self.printer;
        match (action, &mut self.entity) {
            (_, None) => printer.says(action, &"no entity"),
            (Action::Away, place) => {
                let destroyed = place.take().map_or(Destroyed::nothing(), put_away);
                printer.says(action, &destroyed)
            }
            (Action::Request(request, size), Some(entity)) => {
                let mut buffer = vec![in printer.rt.alloc(); 0; *size]?;
                let slip = Slip::take_out();
                let answer = entity.call(&request.call(latest), &slip, &mut buffer);
                let wrote = written(&buffer, answer);
                let told = keep(&mut self.latest, request, wrote).and_then(|()| printer.answered(
                    action, entity, answer, wrote,
                ));
                slip.hand_in(&mut buffer);
                told
            }
        }
    }
}
