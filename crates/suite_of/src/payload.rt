ghost use Rattle.std.specs.Prelude.{◌≡◌, ◌+◌, ◌≤◌, length, Ok, IfSome};
ghost use Rattle.std.specs.Option.{option_map};
ghost use Rattle.buffers.specs.Buffers.{with_front};
ghost use Rattle.suite.specs.Calls.{open_lengths, buffer_after_open};
ghost use Rattle.suite.specs.Numbers.{role_byte};
ghost use Rattle.suite_of.specs.Payloads.{payload_body, with_field, masked_parts, payload_parts};

use super::bytes::same;
use super::kind::Kind;
use buffers::write_front;
use suite::Role;

// The length of role and number, with which a payload begins.
const HEAD: usize = 5;

// Returns how many bytes the last field of a payload has.
fn field_length<K: Kind>() -> usize
    ensures { result ≡ K.functions.field_length }
{
    K::numbers().overhead - HEAD
}

// Writes a payload without its last field to the front of a buffer, and returns how many bytes that is. This and the functions below
// require room, since the calls of a suite have tested the buffer before.
fn write_body<K: Kind>(
    value: &[u8; 16],
    role: Role,
    number: u32,
    plain: &[u8],
    out: &mut [u8],
) -> usize
    requires { length plain.now + 5 ≤ length out.old }
    ensures answer { result ≡ length plain.now + 5 }
    ensures buffer { out.new ≡ with_front (payload_body (K.functions.stream_of value.now (role_byte role) number) (role_byte role) number plain.now) out.old }
{
    let [a, b, c, d] = number.to_be_bytes();
    let head = write_front(&[role.byte(), a, b, c, d], out).unwrap();
    let end = head + plain.len();
    let masked = &mut out[head..end];
    masked.copy_from_slice(plain);
    K::stream(value, role, number, masked);
    end
}

// Writes the payload that protects the data to the front of a buffer, and returns its length. Head and last field have at most 21 bytes.
pub(crate) fn write_payload<K: Kind>(
    value: &[u8; 16],
    role: Role,
    number: u32,
    plain: &[u8],
    out: &mut [u8],
) -> usize
    requires { length plain.now + 21 ≤ length out.old }
    ensures answer { result ≡ length (with_field (K.functions.field_of value.now) (payload_body (K.functions.stream_of value.now (role_byte role) number) (role_byte role) number plain.now)) }
    ensures buffer { out.new ≡ with_front (with_field (K.functions.field_of value.now) (payload_body (K.functions.stream_of value.now (role_byte role) number) (role_byte role) number plain.now)) out.old }
{
    let end = write_body::<K>(value, role, number, plain, out);
    let field = K::field(value, &out[..end]);
    end + write_front(&field[..field_length::<K>()], &mut out[end..]).unwrap()
}

// Returns role, number and masked data of a payload; `None` if it is not good.
fn parts<'a, K: Kind>(value: &[u8; 16], payload: &'a [u8]) -> Option<(Role, u32, &'a [u8])>
    ensures fits { IfSome result (λ t. length t.2.now ≤ length payload.now) }
    ensures parts { option_map (λ t. (role_byte t.0, t.1, t.2.now)) result ≡ masked_parts K.functions.field_length (K.functions.field_of value.now) payload.now }
{
    let (body, field) = payload.split_at_checked(payload.len().checked_sub(field_length::<K>())?)?;
    let [role, a, b, c, d, masked @ ..] = body else {
        return None;
    };
    let role = Role::try_from(*role).ok()?;
    if !same(field, &K::field(value, body)[..field_length::<K>()]) {
        return None;
    }
    Some((role, u32::from_be_bytes([*a, *b, *c, *d]), masked))
}

// Writes the data of a payload, and returns role, number and data length; `None`, with nothing written, if it is not good.
pub(crate) fn read_payload<K: Kind>(
    value: &[u8; 16],
    payload: &[u8],
    out: &mut [u8],
) -> Option<(u8, u32, usize)>
    requires { length payload.now ≤ length out.old }
    ensures answer { Ok result ≡ open_lengths (Ok (payload_parts K.functions.field_length (K.functions.field_of value.now) (K.functions.stream_of value.now) payload.now)) }
    ensures buffer { out.new ≡ buffer_after_open (Ok (payload_parts K.functions.field_length (K.functions.field_of value.now) (K.functions.stream_of value.now) payload.now)) out.old }
{
    let (role, number, masked) = parts::<K>(value, payload)?;
    let n = write_front(masked, out).unwrap();
    K::stream(value, role, number, &mut out[..n]);
    Some((role.byte(), number, n))
}
