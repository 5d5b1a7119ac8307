//! Bytes that are kept.

ghost use Rattle.std.specs.Prelude.{◌≡◌};
ghost use Rattle.mg_types.specs.Bytes.{AreBytes};

/// Bytes that don't change any more.
#[derive(Drop)]
pub struct Bytes {
    pub items: Vec<u8>,
    ghost are_bytes: { AreBytes items.items },
}

impl Bytes {
    pub fn new(items: Vec<u8>) -> Bytes
        ensures { result.items ≡ items }
    {
        Bytes { items }
    }
}
