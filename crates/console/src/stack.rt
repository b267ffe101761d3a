// A suite with the layers over it.
use ledger::Ledger;
use quota::Quota;
use suite::Suite;
use suite_of::{Kind, SuiteOf};

pub(super) trait Stack: Suite {
    // Makes the suite with that root, and the layers over it. A quota allows that many further keys.
    fn put_up(root: [u8; 16], keys: u32) -> Self;

    // Takes the layers off, and closes the suite below them.
    fn take_down(self);
}

impl<K: Kind> Stack for SuiteOf<K> {
    fn put_up(root: [u8; 16], _keys: u32) -> Self {
        SuiteOf::new(root)
    }

    fn take_down(self) {
        let _root = self.close();
    }
}

impl<S: Stack> Stack for Quota<S> {
    fn put_up(root: [u8; 16], keys: u32) -> Self {
        Quota::new(S::put_up(root, keys), keys)
    }

    fn take_down(self) {
        self.into_below().take_down();
    }
}

impl<S: Stack> Stack for Ledger<S> {
    fn put_up(root: [u8; 16], keys: u32) -> Self {
        Ledger::new(S::put_up(root, keys))
    }

    fn take_down(self) {
        self.into_below().take_down();
    }
}
