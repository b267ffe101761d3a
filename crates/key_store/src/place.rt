ghost use Rattle.std.specs.Prelude.{◌≡◌, ℕ, ◌<◌, not, [], length, replicate, Some, None, is_some, slice_index};
ghost use Rattle.std.specs.Option.{option_map};
ghost use Rattle.suite.specs.Meanings.{value_in, is_live};

use suite::KeyKind;

/// What a live key is found by.
#[derive(Clone, Copy, PartialEq, Eq)]
pub struct Label {
    /// From 1 on.
    pub(crate) serial: u32,
    pub(crate) kind: KeyKind,
}

/// Room for one key of 16 bytes. Without a label no key is live here, and the bytes are zeros.
/// The value is not part of the `Option`, since a place without a key has to hold 16 zeros.
#[derive(Drop)]
pub struct Place {
    label: Option<Label>,
    value: [u8; 16],
    ghost long: { length value ≡ 16 },
    ghost bytes: { ((i : ℕ) → slice_index value i < 256) },
    ghost clear: { (label ≡ None → value ≡ replicate 16 0) },
}

impl Place {
    ghost use Rattle.key_store.specs.Places.{labelled_key, key_in};

    // A place without a key.
    pub(crate) fn empty() -> Place
        ensures { key_in result ≡ [] }
    {
        Place {
            label: None,
            value: [0; 16],
        }
    }

    // A place with a key.
    pub(crate) fn holding(label: Label, value: [u8; 16]) -> Place
        ensures { key_in result ≡ labelled_key (Some label) value }
    {
        Place {
            label: Some(label),
            value,
        }
    }

    pub(crate) fn is_empty(&self) -> bool
        ensures { result ≡ not (is_some self.now.label) }
    {
        self.label.is_none()
    }

    // Returns whether the key of that serial lies here.
    pub(crate) fn is_live(&self, serial: u32) -> bool
        ensures { result ≡ is_live (key_in self.now) serial }
    {
        self.label.is_some_and(|label| label.serial == serial)
    }

    // Returns the value, if the key of that label lies here.
    pub(crate) fn value_of(&self, label: Label) -> Option<&[u8; 16]>
        ensures { option_map (λ x. x.now) result ≡ value_in (key_in self.now) label.kind label.serial }
    {
        (self.label == Some(label)).then_some(&self.value)
    }
}
