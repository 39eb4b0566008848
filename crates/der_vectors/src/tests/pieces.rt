//! A content that is read in pieces of 512 bytes.

use der_fixtures::SlowReader;
use picky_asn1_der::asn1::ByteBuf;
use picky_asn1_der::misc::Watched;
use picky_asn1_der::{from_bytes, from_reader, to_vec};
use std::process::Abort;

// So many bytes, which differ from those next to them.
fn octets(rt: &(impl Abort + AllocGlobal), len: usize) -> ByteBuf {
    let mut octets = Vec::new(rt.alloc());
    for place in 0..len {
        octets.push((place % 251) as u8).expect(rt, "memory");
    }
    ByteBuf(octets)
}

#[test]
fn each_byte_comes_in_its_place(rt: HostRuntime) {
    let octets = octets(&rt, 1300);
    let bytes = to_vec(rt.alloc(), &octets).expect(&rt, "memory");
    let read = from_bytes::<ByteBuf>(rt.alloc(), &bytes).expect(&rt, "a value");
    same!(rt; &read, &octets);
    let mut reader = Watched::new(SlowReader::new(&bytes));
    let read = from_reader::<ByteBuf, _>(rt.alloc(), &mut reader).expect(&rt, "a value");
    same!(rt; &read, &octets);
}
