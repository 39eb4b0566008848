//! The content of an unsigned integer (X.690, 8.3).
ghost use Rattle.std.specs.Prelude.{◌≡◌, ◌≤◌, drop};
ghost use Rattle.picky_der_core.specs.Primitive.{unsigned_content};

// A 00 and the sixteen bytes of a number, and the index at which its content begins.
#[derive(Drop)]
pub(crate) struct UnsignedContent {
    bytes: [u8; 17],
    start: usize,
    ghost within: { start ≤ 16 },
}

impl UnsignedContent {
    // The fewest bytes that don't begin with 80 or more: one more than the number's bits fill.
    pub(crate) fn of(number: u128) -> UnsignedContent
        ensures { drop result.start result.bytes ≡ unsigned_content number }
    {
        let mut bytes = [0; 17];
        bytes[1..].copy_from_slice(&number.to_be_bytes());
        let zeros = number.leading_zeros() as usize;
        UnsignedContent {
            bytes,
            start: (zeros + 7) / 8,
        }
    }

    // These bytes.
    pub(crate) fn as_slice(&self) -> &[u8]
        ensures { result.now ≡ drop self.now.start self.now.bytes }
    {
        &self.bytes[self.start..]
    }
}
