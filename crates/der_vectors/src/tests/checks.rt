//! The comparisons that tests use. They end the program where a comparison or an allocation fails, so that a test is a
//! list of calls.
//!
//! An `assert_eq!` costs a proof of some seconds at each use. A call of these functions costs well under one second.

use der_fixtures::bytes_of;
use picky_asn1_der::{Asn1DerError, Deserialize, Serialize, from_bytes, to_vec};
use std::fmt::Debug;
use std::process::Abort;

// What came is what was wanted. The code or the row says what came.
pub(crate) fn same<T: PartialEq + Debug>(rt: &impl Abort, code: &str, came: &T, wanted: &T) {
    assert_eq!(rt; came, wanted, "{code}");
}

// The bytes of a text of hexadecimal digits.
pub(crate) fn bytes(rt: &(impl Abort + AllocGlobal), text: &str) -> Vec<u8> {
    bytes_of(rt.alloc(), text).expect(rt, "hexadecimal digits")
}

// The text on the heap.
pub(crate) fn text(rt: &(impl Abort + AllocGlobal), text: &str) -> String {
    String::from_str(rt.alloc(), text).expect(rt, "memory")
}

// The value is written as these bytes.
pub(crate) fn is_written<T: Serialize>(rt: &(impl Abort + AllocGlobal), value: &T, encoding: &str) {
    let wanted = bytes(rt, encoding);
    same(rt, encoding, &to_vec(rt.alloc(), value), &Ok(wanted));
}

// The value is written as these bytes, and is read back from them.
pub(crate) fn is_encoded<T: Deserialize + Debug>(
    rt: &(impl Abort + AllocGlobal),
    value: T,
    encoding: &str,
) {
    is_written(rt, &value, encoding);
    let given = bytes(rt, encoding);
    same(
        rt,
        encoding,
        &from_bytes::<T>(rt.alloc(), &given),
        &Ok(value),
    );
}

// The value of these bytes, which is written as the same bytes.
pub(crate) fn read_back<T: Deserialize>(rt: &(impl Abort + AllocGlobal), encoding: &str) -> T {
    let given = bytes(rt, encoding);
    let value = from_bytes::<T>(rt.alloc(), &given).expect(rt, encoding);
    is_written(rt, &value, encoding);
    value
}

// Reading these bytes as a value of the type fails with this error.
pub(crate) fn is_refused<T: Deserialize>(
    rt: &(impl Abort + AllocGlobal),
    encoding: &str,
    error: Asn1DerError,
) {
    let given = bytes(rt, encoding);
    let refused = from_bytes::<T>(rt.alloc(), &given).err();
    same(rt, encoding, &refused, &Some(error));
}
