// The records of a day, in two sessions, and what the link does to the frame of each.

// What becomes of a frame that was sent.
#[derive(Clone, Copy)]
pub(super) enum Fate {
    Arrives,
    Lost,
    // It returns to its sender.
    Echoed,
}

pub(super) struct Record {
    pub(super) text: &'static str,
    // What becomes of its frame each time it is sent, until the data is retrieved. It arrives at least once.
    pub(super) fates: &'static [Fate],
    // Whether it arrives once more after that, to be dropped.
    pub(super) late: bool,
}

use Fate::{Arrives, Echoed, Lost};

pub(super) const MORNING: [Record; 2] = [
    Record {
        text: "06:00 chlorine 0.42 l",
        fates: &[Arrives],
        late: false,
    },
    Record {
        text: "09:30 chlorine 0.35 l",
        fates: &[Lost, Arrives],
        late: false,
    },
];

pub(super) const EVENING: [Record; 3] = [
    Record {
        text: "13:00 acid 0.10 l",
        fates: &[Arrives, Arrives],
        late: true,
    },
    Record {
        text: "17:15 chlorine 0.51 l",
        fates: &[Echoed, Arrives],
        late: false,
    },
    Record {
        text: "21:00 flocculant 0.04 l",
        fates: &[Lost, Echoed, Arrives, Arrives],
        late: false,
    },
];
