//! Long sets, whose members are given in several orders.

use crate::tests::checks::bytes;
use der_fixtures::SlowReader;
use picky_asn1_der::Asn1DerError::InvalidData;
use picky_asn1_der::asn1::Asn1SetOf;
use picky_asn1_der::misc::Watched;
use picky_asn1_der::{Result as DerResult, from_reader_with_max_len, to_vec};
use std::process::Abort;

// This many numbers in ascending order, each twice. Each is encoded in four bytes.
fn ascending(rt: &(impl Abort + AllocGlobal), count: u16) -> Vec<u16> {
    let mut numbers = Vec::new(rt.alloc());
    for place in 0..count {
        numbers.push(256 + place / 2).expect(rt, "memory");
    }
    numbers
}

// The numbers in steps of a prime number that divides none of the lengths. Each number comes once.
fn shuffled(rt: &(impl Abort + AllocGlobal), numbers: &[u16]) -> Vec<u16> {
    let mut mixed = Vec::new(rt.alloc());
    for place in 0..numbers.len() {
        if let Some(number) = numbers.get(place.wrapping_mul(7919) % numbers.len()) {
            mixed.push(*number).expect(rt, "memory");
        }
    }
    mixed
}

// The header, and the members as they are given.
fn set_of(rt: &(impl Abort + AllocGlobal), header: &str, members: &[u16]) -> Vec<u8> {
    let mut bytes = bytes(rt, header);
    for member in members {
        let [high, low] = member.to_be_bytes();
        bytes
            .extend_from_slice(&[0x02, 0x02, high, low])
            .expect(rt, "memory");
    }
    bytes
}

// A set whose members are given in this order is written as the ascending one. It is read only if it is in ascending
// order. Otherwise it is refused after the first member that is less than the one before it.
fn goes_there_and_back(
    rt: &(impl Abort + AllocGlobal),
    header: &str,
    wanted: &[u8],
    members: Vec<u16>,
) {
    let given = set_of(rt, header, &members);
    let set = Asn1SetOf(members);
    let written = to_vec(rt.alloc(), &set).expect(rt, "memory");
    same!(*rt; written.as_slice(), wanted);
    let mut reader = Watched::new(SlowReader::new(&given));
    let read: DerResult<Asn1SetOf<u16>> = from_reader_with_max_len(
        rt.alloc(),
        &mut reader,
        given.len(),
    );
    let less = set.0.windows(2).position(|two| two[1] < two[0]);
    match less {
        None => same!(*rt; read, Ok(set)),
        Some(place) => {
            let after = (set.0.len() - place).saturating_sub(2).saturating_mul(4);
            same!(*rt; read.err(), Some(InvalidData));
            same!(*rt; reader.get_ref().given(), given.len().saturating_sub(after));
        }
    }
}

// So many numbers, in each order.
fn have_one_order(rt: &(impl Abort + AllocGlobal), count: u16, header: &str) {
    let numbers = ascending(rt, count);
    let wanted = set_of(rt, header, &numbers);
    let mut reversed = Vec::from_slice(rt.alloc(), &numbers).expect(rt, "memory");
    reversed.reverse();
    goes_there_and_back(rt, header, &wanted, reversed);
    let mixed = shuffled(rt, &numbers);
    goes_there_and_back(rt, header, &wanted, mixed);
    goes_there_and_back(rt, header, &wanted, numbers);
}

#[test]
fn sets_have_one_order(rt: HostRuntime) {
    have_one_order(&rt, 0, "31 00");
    have_one_order(&rt, 1, "31 04");
    have_one_order(&rt, 2, "31 08");
    have_one_order(&rt, 3, "31 0C");
    have_one_order(&rt, 200, "31 82 03 20");
    have_one_order(&rt, 10_000, "31 82 9C 40");
}
