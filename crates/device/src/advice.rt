// What is done about a refusal. A call that was refused has changed nothing, and there is nothing to be transmitted.
use nfc_sec::Refusal;
use std::fmt;

#[derive(Clone, Copy)]
pub(super) enum Advice {
    /// The device's program is wrong, and would be refused again.
    MendProgram,
    /// What the radio gave is no frame.
    PassOver,
    /// The data that is held has to be retrieved; then the same frame is given again.
    RetrieveFirst,
    /// The request comes too early or too late: there is a confirmation to wait for, or a service to ask for.
    Wait,
    /// The data has to go in records of 1 to 200 bytes.
    OtherLength,
    /// The session has to be terminated and another one invoked, in which the same data is sent.
    NewSession,
}

impl Advice {
    /// For the refusals 1 to 10.
    pub(super) fn on(refusal: Refusal) -> Advice {
        match refusal {
            // 1, 2, 6, 10: buffers, seeds and the PID are the device's own.
            Refusal::ReplyBuffer | Refusal::SeedLength | Refusal::OtherPid | Refusal::SmallBuffer =>
                Advice::MendProgram,
            // 3
            Refusal::FrameLength => Advice::PassOver,
            // 4: it does not come where data is retrieved as soon as it is there.
            Refusal::DataHeld => Advice::RetrieveFirst,
            // 5, 9
            Refusal::WrongState | Refusal::NothingHeld => Advice::Wait,
            // 7
            Refusal::DataLength => Advice::OtherLength,
            // 8
            Refusal::NumberSpent => Advice::NewSession,
        }
    }
}

impl fmt::Display for Advice {
    fn fmt<W: fmt::Write>(&self, f: &mut fmt::Formatter<W>) -> fmt::Result {
        f.write_str(match self {
            Advice::MendProgram => "the program has to be mended",
            Advice::PassOver => "passed over",
            Advice::RetrieveFirst => "the data has to be retrieved first",
            Advice::Wait => "not now",
            Advice::OtherLength => "another length is needed",
            Advice::NewSession => "another session is needed",
        })
    }
}
