// An entity on a board: what the device does about each event, and about what each call of the entity returns.
ghost use Rattle.std.specs.Prelude.{◌≡◌, ◌≤◌, replicate, IfOk};
ghost use Rattle.nfc_sec.specs.suite.declared.limits.TheConstants.{MAX_DATA};

use super::advice::Advice;
use super::board::{Board, Event};
use nfc_sec::suites::{HasMeaning, Suite};
use nfc_sec::{
    Ancillary, Confirmation, Destroyed, Entity, MAX_DATA, MAX_FRAME, Outcome, Refusal, Service,
    Slip, State,
};

// How often a frame is transmitted that is not delivered, before the session is given up.
const TRIES: usize = 3;

/// An entity on a board, for one link.
pub(super) struct Device<'a, B, S: HasMeaning> {
    board: &'a mut B,
    entity: Entity<S>,
    // It holds only what goes over the link, so it need not be cleared.
    reply: [u8; MAX_FRAME],
    // A seed, the data of a record and a secret lie here while they are needed, and else there are zeros. They do not lie in the functions
    // that use them, since a compiler may leave out a write to bytes that end at once.
    seed: [u8; 16],
    plain: [u8; MAX_DATA],
    secret: [u8; 16],
    ghost no_seed: { seed ≡ replicate 16 0 },
    ghost no_plain: { plain ≡ replicate MAX_DATA 0 },
    ghost no_secret: { secret ≡ replicate 16 0 },
}

impl<'a, B: Board, S: Suite> Device<'a, B, S> {
    pub(super) fn new(board: &'a mut B, entity: Entity<S>) -> Device<'a, B, S> {
        Device {
            board,
            entity,
            reply: [0; MAX_FRAME],
            seed: [0; 16],
            plain: [0; MAX_DATA],
            secret: [0; 16],
        }
    }

    /// Puts the entity away. Returns its suite, and the serials of the keys destroyed, 0 for none.
    pub(super) fn put_away(self) -> (S, Destroyed) {
        let Device {
            board: _,
            entity,
            reply: _,
            seed: _,
            plain: _,
            secret: _,
        } = self;
        entity.put_away()
    }

    /// The main loop: serves the link until it is released.
    pub(super) fn run(&mut self) -> Result<(), B::Error> {
        let mut buffer = [0; MAX_FRAME];
        let done = self.serve_events(&mut buffer);
        buffer.fill(0);
        done?;
        self.release()
    }

    fn serve_events(&mut self, buffer: &mut [u8; MAX_FRAME]) -> Result<(), B::Error> {
        // Every loop is proved to end: this one by a count that no device reaches.
        for _ in 0..u64::MAX {
            let Some(event) = self.board.next_event(buffer)? else {
                break;
            };
            self.step(event)?;
            // The application's record lay here, or what came over the link.
            buffer.fill(0);
        }
        Ok(())
    }

    fn step(&mut self, event: Event<'_>) -> Result<(), B::Error> {
        match event {
            Event::Wanted(service) => self.invoke(service),
            Event::Frame(frame) => self.receive(frame),
            Event::Record(plain) => self.send(plain),
            Event::Done => self.terminate(),
        }
    }

    fn invoke(&mut self, service: Service) -> Result<(), B::Error> {
        let pid = S::numbers().pid;
        self.board.draw_seed(&mut self.seed)?;
        let answer = self
            .entity
            .invoke(service, pid, &self.seed, &mut self.reply);
        self.seed.fill(0);
        self.answered(answer)
    }

    // Each frame comes with a new seed: which one is an ACT_REQ is not known before.
    fn receive(&mut self, frame: &[u8]) -> Result<(), B::Error> {
        self.board.draw_seed(&mut self.seed)?;
        let beside = Ancillary { seed: &self.seed };
        let answer = self.entity.frame(frame, beside, &mut self.reply);
        self.seed.fill(0);
        self.answered(answer)
    }

    // A record is sent once, whatever becomes of its frame: sent again it would be another record.
    fn send(&mut self, plain: &[u8]) -> Result<(), B::Error> {
        let answer = self.entity.send(plain, &mut self.reply);
        self.answered(answer)
    }

    fn terminate(&mut self) -> Result<(), B::Error> {
        let answer = self.entity.terminate(&mut self.reply);
        self.answered(answer)
    }

    fn release(&mut self) -> Result<(), B::Error> {
        let outcome = self.entity.release();
        self.board.confirmed(&outcome, true)
    }

    fn answered(&mut self, answer: Result<Outcome, Refusal>) -> Result<(), B::Error>
        requires { IfOk answer (λ o. o.length ≤ MAX_FRAME) }
    {
        match answer {
            Ok(outcome) => self.confirmed(outcome),
            Err(refusal) => self.board.refused(refusal, Advice::on(refusal)),
        }
    }

    // What was written is transmitted, whatever is confirmed: of a fault it is the ERROR for the peer.
    fn confirmed(&mut self, outcome: Outcome) -> Result<(), B::Error>
        requires { outcome.length ≤ MAX_FRAME }
    {
        let delivered = outcome.length == 0 || self.transmit(outcome.length)?;
        self.board.confirmed(&outcome, delivered)?;
        if !delivered {
            return self.release();
        }
        match outcome.confirmation {
            // 1: the service is in effect; that of SSE is a secret.
            Confirmation::Established if self.entity.state() == State::ConfirmedSse => {
                self.share_secret()
            }
            // 3: at once, since the next record is refused (4) until the data is retrieved.
            Confirmation::DataAvailable => self.retrieve(),
            // 4 and 5: the session is over and its keys are destroyed. The application knows, and may ask for a service again.
            Confirmation::Terminated | Confirmation::Error => Ok(()),
            // 0, 1 of SCH, 2 and 6: it goes on. A record that was dropped is not shown to the application.
            Confirmation::Nothing
            | Confirmation::Established
            | Confirmation::DataSent
            | Confirmation::Dropped => Ok(()),
        }
    }

    // Transmits what was written, and the same bytes again where they are not delivered. Returns whether they are in the end.
    fn transmit(&mut self, length: usize) -> Result<bool, B::Error>
        requires { length ≤ MAX_FRAME }
    {
        for _ in 0..TRIES {
            if self.board.transmit(&self.reply[..length])? {
                return Ok(true);
            }
        }
        Ok(false)
    }

    // The data goes to the application, and its bytes are cleared.
    fn retrieve(&mut self) -> Result<(), B::Error> {
        let done = match self.entity.retrieve_data(&mut self.plain) {
            Ok(outcome) => self.board.take_record(&self.plain[..outcome.length]),
            Err(refusal) => self.board.refused(refusal, Advice::on(refusal)),
        };
        self.plain.fill(0);
        done
    }

    // The secret goes to the application, and the slip clears its bytes: it cannot be dropped, so there is no other way out of here.
    fn share_secret(&mut self) -> Result<(), B::Error> {
        let slip = Slip::take_out();
        let done = match self.entity.retrieve_secret(&slip, &mut self.secret) {
            Ok(_) => self.board.take_secret(&self.secret),
            Err(refusal) => self.board.refused(refusal, Advice::on(refusal)),
        };
        slip.hand_in(&mut self.secret);
        done
    }
}
