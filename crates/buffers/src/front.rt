ghost use Rattle.std.specs.Prelude.{◌≡◌, length};
ghost use Rattle.buffers.specs.Buffers.{front_length, with_front_if_room};

/// Writes bytes to the front of a buffer, and returns how many they are. Bytes of the buffer past them stay as they were.
///
/// `None`, and nothing is written, if the buffer is shorter than the bytes.
pub fn write_front(bytes: &[u8], out: &mut [u8]) -> Option<usize>
    ensures answer { result ≡ front_length bytes.now (length out.old) }
    ensures buffer { out.new ≡ with_front_if_room bytes.now out.old }
{
    if out.len() < bytes.len() {
        return None;
    }
    out[..bytes.len()].copy_from_slice(bytes);
    Some(bytes.len())
}
