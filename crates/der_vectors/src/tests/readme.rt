//! The first code of the README.

use picky_asn1_der::Asn1DerError::InvalidData;
use picky_asn1_der::{DecodeError, from_der, to_vec};
use std::test::Fail;

#[test]
fn the_first_code_of_the_readme(rt: HostRuntime) -> Result<(), Fail> {
    let alloc = rt.alloc();
    // Here `rt` is the runtime of a program, and `alloc` its allocator.
    let der = b"\x30\x06\x02\x01\x07\x01\x01\xFF";
    assert_eq!(rt; to_vec(alloc, &(7u32, true))?.as_slice(), der.as_slice());
    assert!(rt; from_der::<(u32, bool)>(alloc, der)? == (7, true));
    // TRUE is FF in DER. BER also has 01 for it. A position counts the bytes that were consumed.
    let refused = from_der::<(u32, bool)>(alloc, b"\x30\x06\x02\x01\x07\x01\x01\x01").err();
    let error = InvalidData;
    assert_eq!(rt; refused, Some(DecodeError { error, position: 8 }));
    Ok(())
}
