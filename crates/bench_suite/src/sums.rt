ghost use Rattle.std.specs.Prelude.{◌≡◌};
ghost use Rattle.bench_suite.specs.Benches.{sum_byte};

// Returns the sum of all bytes modulo 256.
pub(super) fn sum_byte(bytes: &[u8]) -> u8
    ensures { result ≡ sum_byte bytes.now }
{
    bytes.iter().fold(0u8, |sum, byte| sum.wrapping_add(*byte))
}
