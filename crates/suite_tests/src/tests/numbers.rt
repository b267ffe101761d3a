// The numbers that stand for roles, kinds of keys, denials and marks.
use ledger::RowMark;
use suite::{Denial, KeyKind, Role};

#[test]
fn numbers(rt: HostRuntime) {
    let roles = [Role::Sender.byte(), Role::Recipient.byte()];
    let kinds = [KeyKind::SharedSecret.number(), KeyKind::LinkKey.number()];
    let faults = [Denial::BadOffer.number(), Denial::Spent.number()];
    let others = [Denial::Unfit.number(), Denial::Unknown.number()];
    let marks = [RowMark::Live.number(), RowMark::Destroyed.number()];
    assert_eq!(rt;
        [roles, kinds, faults, others, marks],
        [[1, 2], [1, 2], [2, 3], [8, 9], [1, 2]]
    );
}
