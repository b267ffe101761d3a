// One session between two peers.
use super::peer::{Key, Peer};
use super::stopped::Stopped;
use buffers::MAX_FRAME;
use suite::Suite;

const RECORD: &[u8] = b"chlorine 0.6 mg/l";

// Each peer agrees on the other's offer.
fn agree_both<S: Suite, T: Suite>(
    sender: &mut Peer<S>,
    recipient: &mut Peer<T>,
) -> Result<(Key, Key), Stopped> {
    let mut sent = [0; MAX_FRAME];
    let mut received = [0; MAX_FRAME];
    let sent = sender.offer(&mut sent)?;
    let received = recipient.offer(&mut received)?;
    let own = sender.agree(received)?;
    let theirs = recipient.agree(sent)?;
    Ok((own, theirs))
}

fn protect<S: Suite, T: Suite>(
    sender: &Peer<S>,
    link: Key,
    recipient: &Peer<T>,
    their_link: Key,
) -> Result<(), Stopped> {
    let mut payload = [0; MAX_FRAME];
    let payload = sender.seal(link, RECORD, &mut payload)?;
    recipient.open(their_link, payload)
}

pub(super) fn hand_over_one_record<S: Suite, T: Suite>(
    sender: &mut Peer<S>,
    recipient: &mut Peer<T>,
) -> Result<(), Stopped> {
    let (own, theirs) = agree_both(sender, recipient)?;
    sender.check(own)?;
    recipient.check(theirs)?;
    let link = sender.derive(own)?;
    let their_link = recipient.derive(theirs)?;
    protect(sender, link, recipient, their_link)?;
    sender.destroy(link)?;
    sender.destroy(own)?;
    recipient.destroy(their_link)?;
    recipient.destroy(theirs)
}
