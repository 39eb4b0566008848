//! The calls that read a value, each in one place, so that each is compiled once for each type.

use der_fixtures::SlowReader;
use picky_asn1_der::misc::Watched;
use picky_asn1_der::{
    Deserialize, Deserializer, Result, from_bytes, from_reader, from_reader_with_max_len,
};
use std::alloc::Global;

/// What `from_bytes` returns.
#[inline(never)]
pub(crate) fn by_from_bytes<T: Deserialize>(alloc: Global, bytes: &[u8]) -> Result<T> {
    from_bytes(alloc, bytes)
}

/// What a deserializer over the bytes returns, and how many of them are consumed.
#[inline(never)]
pub(crate) fn by_deserializer<T: Deserialize>(alloc: Global, bytes: &[u8]) -> (Result<T>, usize) {
    let mut de = Deserializer::new_from_bytes(alloc, bytes);
    let outcome = T::deserialize(&mut de);
    (outcome, de.taken())
}

/// What `from_reader` returns, over a reader that returns one byte per call.
#[inline(never)]
pub(crate) fn by_from_reader<T: Deserialize>(alloc: Global, bytes: &[u8]) -> Result<T> {
    let mut reader = Watched::new(SlowReader::new(bytes));
    from_reader(alloc, &mut reader)
}

/// What `from_reader_with_max_len` returns with this limit, over a reader that returns one byte per call, and how many
/// bytes that returned.
#[inline(never)]
pub(crate) fn below_limit<T: Deserialize>(
    alloc: Global,
    bytes: &[u8],
    limit: usize,
) -> (Result<T>, usize) {
    let mut reader = Watched::new(SlowReader::new(bytes));
    let outcome = from_reader_with_max_len(alloc, &mut reader, limit);
    (outcome, reader.get_ref().given())
}
