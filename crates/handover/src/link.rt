// The frames that pass over the link.
use super::day::{Fate, Record};
use super::station::Station;
use super::stopped::Stopped;
use frame::Service;
use suite::Suite;

// The PID of the keyed suite.
const KEYED: u8 = 0xF1;

// The handset asks for a secure channel, and each reply is passed on until both have confirmed it.
pub(super) fn activate<S: Suite, T: Suite>(
    handset: &mut Station<S>,
    controller: &mut Station<T>,
) -> Result<(), Stopped> {
    let act_req = handset.invoke(Service::Sch, KEYED)?;
    let act_res = controller.receive(&act_req)?;
    let vfy_req = handset.receive(&act_res)?;
    let vfy_res = controller.receive(&vfy_req)?;
    handset.receive(&vfy_res)?;
    Ok(())
}

// The same frame is sent until it has arrived. To seal the data again would make another record.
pub(super) fn hand_over<S: Suite, T: Suite>(
    from: &mut Station<S>,
    to: &mut Station<T>,
    record: &Record,
) -> Result<(), Stopped> {
    let enc = from.send(record.text)?;
    for fate in record.fates {
        match fate {
            Fate::Lost => from.lost()?,
            Fate::Echoed => {
                from.receive(&enc)?;
            }
            Fate::Arrives => {
                to.receive(&enc)?;
            }
        }
    }
    to.retrieve()?;
    if record.late {
        to.receive(&enc)?;
    }
    Ok(())
}

pub(super) fn terminate<S: Suite, T: Suite>(
    from: &mut Station<S>,
    to: &mut Station<T>,
) -> Result<(), Stopped> {
    let tmn = from.terminate()?;
    to.receive(&tmn)?;
    Ok(())
}
