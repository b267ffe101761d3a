ghost use Rattle.std.specs.Prelude.{◌≡◌};
ghost use Rattle.std.specs.Str.{bytes_eq};

// Returns whether two fields are equal. Two of the same length are compared over the whole of it, wherever they first differ; no contract
// speaks of that.
pub(super) fn same(a: &[u8], b: &[u8]) -> bool
    ensures { result ≡ bytes_eq a.now b.now }
{
    if a.len() != b.len() {
        return false;
    }
    let mut difference = 0;
    for (i, byte) in a.iter().enumerate() {
        difference |= byte ^ b[i];
    }
    difference == 0
}
