// A script: how the peers are set up, and the calls that follow.
use super::call::Step;
use super::setup::Setup;
use super::stopped::{Stopped, Unreadable};
use super::words::words;
use std::alloc::{AllocError, Global};

#[derive(Drop)]
pub(super) struct Script {
    // None before the line that chooses the suite.
    setup: Option<Setup>,
    steps: Vec<Step>,
}

impl Script {
    pub(super) fn new(heap: Global) -> Script {
        Script {
            setup: None,
            steps: Vec::new(heap),
        }
    }

    pub(super) fn setup(&self) -> Option<Setup> {
        self.setup
    }

    pub(super) fn steps(&self) -> &[Step] {
        &self.steps
    }

    // Reads up to the first line that cannot be read: the error says which it is. The lines before it are kept.
    pub(super) fn read(&mut self, heap: Global, text: &[u8]) -> Result<(), Stopped> {
        for (number, line) in (1..).zip(text.split(|b| *b == b'\n')) {
            self.read_line(heap, line)
                .map_err(|reason| Stopped::Line { number, reason })?;
        }
        Ok(())
    }

    fn read_line(&mut self, heap: Global, line: &[u8]) -> Result<(), Unreadable> {
        if let [b'#', ..] = line {
            return Ok(());
        }
        let line = str::from_utf8(line).map_err(|_| Unreadable::NotText)?;
        self.read_words(heap, &words(heap, line)?)
    }

    fn read_words(&mut self, heap: Global, words: &[&str]) -> Result<(), Unreadable> {
        match (words, &mut self.setup) {
            ([], _) => Ok(()),
            (["suite", kind], None) => {
                self.setup = Some(Setup::new(kind)?);
                Ok(())
            }
            (["suite", ..], _) | (_, None) => Err(Unreadable::SuiteFirst),
            (["layer" | "root" | "sec", ..], Some(setup)) if self.steps.is_empty() => {
                setup.set(heap, words)
            }
            (["layer" | "root" | "sec", ..], _) => Err(Unreadable::SetUpLate),
            _ => {
                let step = Step::read(heap, words)?;
                Ok(self.steps.push(step).map_err(AllocError::from)?)
            }
        }
    }
}
