ghost use Rattle.std.specs.Prelude.{◌≡◌, ◌≤◌, true, is_some, Ok};
ghost use Rattle.keyed_suite.specs.Keyed.{keyed_functions};
ghost use Rattle.measured.specs.Returns.{is_given_back, is_in_limits, return_count, return_count_under, unused_meaning};
ghost use Rattle.suite.specs.Calls.{open_result};
ghost use Rattle.suite.specs.Meanings.{value_in};
ghost use Rattle.suite.specs.declared.types.KeyKind.TheVariants.{LinkKey};
ghost use Rattle.suite_of.specs.KindMeanings.{meaning_of};
ghost use Rattle.suite_of.specs.Kinds.{scheme_of};

use buffers::MAX_FRAME;
use keyed_suite::KeyedSuite;
use suite::{Denial, Role, Suite};

// Makes a link key of the secret of two fixed seeds, and returns its serial.
fn link(suite: &mut KeyedSuite) -> Result<u32, Denial>
    requires { meaning_of suite.old ≡ unused_meaning (meaning_of suite.old).root }
    ensures serial { result ≡ Ok 2 }
    ensures live { is_some (value_in (meaning_of suite.new).live LinkKey 2) ≡ true }
{
    let secret = suite.agree(&[1; 16], &[2; 16], Role::Sender.byte())?;
    suite.derive(secret)
}

// Returns whether a payload opens as the Sender's record of that number and those data.
fn opens(suite: &KeyedSuite, link: u32, payload: &[u8], number: u32, plain: &[u8]) -> bool
    ensures { result ≡ is_given_back number plain.now (open_result (scheme_of keyed_functions) (meaning_of suite.now) link payload.now MAX_FRAME) }
{
    let mut back = [0; MAX_FRAME];
    match suite.open(link, payload, &mut back) {
        Ok(Some((role, again, size))) => {
            role == Role::Sender.byte() && again == number && &back[..size] == plain
        }
        _ => false,
    }
}

// Returns whether a record that the Sender seals opens as itself.
fn crosses(suite: &KeyedSuite, link: u32, number: u32, plain: &[u8]) -> bool
    requires { is_some (value_in (meaning_of suite.now).live LinkKey link) ≡ true }
    ensures { result ≡ is_in_limits plain.now number }
{
    let mut payload = [0; MAX_FRAME];
    match suite.seal(link, Role::Sender.byte(), number, plain, &mut payload) {
        Ok(length) => opens(suite, link, &payload[..length], number, plain),
        Err(_denial) => false,
    }
}

// Returns how many records of these data, numbered from 1 to `times`, open as themselves.
fn crossings(suite: &KeyedSuite, link: u32, plain: &[u8], times: u32) -> u32
    requires { is_some (value_in (meaning_of suite.now).live LinkKey link) ≡ true }
    ensures { result ≡ return_count plain.now times }
{
    let mut crossed = 0;
    for before in 0..times {
        if crosses(suite, link, before + 1, plain) {
            crossed += 1;
        }
    }
    crossed
}

/// Seals and opens a record of these data under each number from 1 to `times`, and returns how many came out as they were. Returns 0 for a
/// root that does not have 16 bytes.
#[unsafe(no_mangle)]
pub extern "C" fn measured_records(root: &[u8], plain: &[u8], times: u32) -> u32
    ensures { result ≡ return_count_under root.now plain.now times }
{
    let Some(root) = root.as_array() else {
        return 0;
    };
    let mut suite = KeyedSuite::new(*root);
    let crossed = match link(&mut suite) {
        Ok(link) => crossings(&suite, link, plain, times),
        Err(_denial) => 0,
    };
    suite.close();
    crossed
}
