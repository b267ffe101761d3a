ghost use Rattle.std.specs.Prelude.{◌≡◌, take};
ghost use Rattle.suite.specs.Numbers.{role_byte};
ghost use Rattle.suite.specs.Schemes.{numbers_of};
ghost use Rattle.suite_of.specs.Kinds.{KindFunctions, scheme_of, IsLawfulKind};
ghost use Rattle.suite_of.specs.Streams.{xor_stream};

use suite::{KindNumbers, Role};

/// What a kind of suite computes of its root and of the values of keys: its numbers and five functions. Roots, seeds, offers and values
/// have 16 bytes.
pub trait Kind {
    // The numbers and the functions, as the contracts of `SuiteOf` name them.
    ghost functions: { KindFunctions };

    /// Returns the six numbers of the kind: offers of 16 bytes, check values of at most 16, an overhead of 5 and the length of the last
    /// field, at most 16, and 0 as the first number.
    fn numbers() -> KindNumbers
        ensures { result ≡ numbers_of (scheme_of functions) };

    /// Returns the shared secret of this peer's seed and the other peer's offer under a root. `role` is this peer's; both peers of an
    /// agreement get the same secret.
    fn secret(root: &[u8; 16], role: Role, seed: &[u8; 16], offer: &[u8; 16]) -> [u8; 16]
        ensures { result ≡ functions.secret_of root.now (role_byte role) seed.now offer.now };

    /// Returns a block that begins with the check value of a shared secret for a role.
    fn check(value: &[u8; 16], role: Role) -> [u8; 16]
        ensures { take functions.check_length result ≡ functions.check_of value.now (role_byte role) };

    /// Returns the link key of a shared secret.
    fn link(value: &[u8; 16]) -> [u8; 16]
        ensures { result ≡ functions.link_of value.now };

    /// XORs the stream of a record, under a link key, into its data, from the first byte of the stream on.
    fn stream(value: &[u8; 16], role: Role, number: u32, bytes: &mut [u8])
        ensures { bytes.new ≡ xor_stream (functions.stream_of value.now (role_byte role) number) 0 bytes.old };

    /// Returns a block that begins with the last field of a payload, computed under a link key of all before it.
    fn field(value: &[u8; 16], body: &[u8]) -> [u8; 16]
        ensures { take functions.field_length result ≡ functions.field_of value.now body.now };

    // What every kind owes.
    ghost lawful: { IsLawfulKind functions };
}
