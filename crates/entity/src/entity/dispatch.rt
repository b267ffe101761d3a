ghost use Rattle.std.specs.Prelude.{length};
ghost use Rattle.protocol.specs.Calls.{MakesCall};
ghost use Rattle.entity.specs.CallViews.{call_of};
ghost use Rattle.entity.specs.Views.{view};

use super::Entity;
use crate::call::Call;
use crate::slip::Slip;
use protocol::{Outcome, Refusal};
use suite::Suite;

impl<S: Suite> Entity<S> {
    /// Makes a call as a log has it, with a buffer that it may write, and returns what the method of that call returns. Only the call that
    /// retrieves the shared secret makes use of the slip.
    ///
    /// Refused as that method is.
    pub fn call(
        &mut self,
        call: &Call<'_>,
        slip: &Slip,
        buffer: &mut [u8],
    ) -> Result<Outcome, Refusal>
        ensures { MakesCall S.scheme (view S.meaning self.old) (call_of call.now (length buffer.old)) (view S.meaning self.new) result buffer.old buffer.new }
    {
        match *call {
            Call::Invoke { service, pid, seed } => self.invoke(service, pid, seed, buffer),
            Call::Send { plain } => self.send(plain, buffer),
            Call::RetrieveData => self.retrieve_data(buffer),
            Call::RetrieveSecret => self.retrieve_secret(slip, buffer),
            Call::Terminate => self.terminate(buffer),
            Call::Frame { bytes, beside } => self.frame(bytes, beside, buffer),
            Call::Release => Ok(self.release()),
        }
    }
}
