ghost use Rattle.std.specs.Prelude.{◌≡◌, length, IfOk, OnErr};
ghost use Rattle.entity.specs.Views.{view};
ghost use Rattle.replay.specs.LogViews.{logged_calls};
ghost use Rattle.replay.specs.Replays.{AllPromises, IsReplay, RecordsFollow};

use super::entry::{Entry, WrittenBytes};
use super::logged::LoggedCall;
use super::play::{longest, play};
use entity::Entity;
use protocol::Refusal;
use std::alloc::{AllocError, Global};
use suite::Suite;

/// What the calls of two logs returned and wrote: an entry for each call, in the order of its log.
#[derive(Drop)]
pub struct Transcripts {
    /// Of the first log.
    pub one: Vec<Entry>,
    /// Of the second log.
    pub other: Vec<Entry>,
}

// Places for the entries of a log.
fn places(alloc: Global, log: &[LoggedCall<'_>]) -> Result<Vec<Entry>, AllocError>
    ensures { IfOk result (λ v. length v.items ≡ length log.now) }
{
    let blank = Entry {
        answer: Err(Refusal::WrongState),
        written: WrittenBytes::nothing(),
        record: None,
    };
    vec![in alloc; blank; log.len()]
}

/// Makes the calls of two logs again, each log on its entity, and returns what they returned and wrote, with the records that each user
/// sent and was handed, session by session. Memory is allocated first: on an error no call was made, and both entities are as they were.
#[tactic(auto, using(crate::proofs::Turns::written_back))]
pub fn replay<S: Suite, T: Suite>(
    alloc: Global,
    one: &mut Entity<S>,
    other: &mut Entity<T>,
    log: &[LoggedCall<'_>],
    other_log: &[LoggedCall<'_>],
) -> Result<Transcripts, AllocError>
    ensures promised { AllPromises }
    ensures one { IfOk result (λ t. IsReplay S.scheme (view S.meaning one.old) (logged_calls log.now) (view S.meaning one.new) t.one.items) }
    ensures other { IfOk result (λ t. IsReplay T.scheme (view T.meaning other.old) (logged_calls other_log.now) (view T.meaning other.new) t.other.items) }
    ensures order { IfOk result (λ t. RecordsFollow S.scheme T.scheme (view S.meaning one.old) (view T.meaning other.old) (logged_calls log.now) (logged_calls other_log.now) t.one.items t.other.items) }
    ensures order_back { IfOk result (λ t. RecordsFollow T.scheme S.scheme (view T.meaning other.old) (view S.meaning one.old) (logged_calls other_log.now) (logged_calls log.now) t.other.items t.one.items) }
    ensures unchanged { OnErr result ((one.new ≡ one.old) × (other.new ≡ other.old)) }
{
    let mut first = places(alloc, log)?;
    let mut second = places(alloc, other_log)?;
    let room = longest(log).max(longest(other_log));
    let mut buffer = vec![in alloc; 0; room]?;
    play(one, log, &mut buffer, &mut first);
    play(other, other_log, &mut buffer, &mut second);
    Ok(Transcripts {
        one: first,
        other: second,
    })
}
