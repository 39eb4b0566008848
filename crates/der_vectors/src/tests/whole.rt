//! Whole inputs, where they are refused, and how that prints.

use crate::tests::checks::{bytes, same};
use der_examples::NumberOrFlag;
use picky_asn1_der::Asn1DerError::{InvalidData, TruncatedData, UnsupportedValue};
use picky_asn1_der::asn1::ByteBuf;
use picky_asn1_der::{Asn1DerError, DecodeError, Deserialize, Result as DerResult, from_der};
use std::alloc::Global;
use std::process::Abort;

// Reading these bytes fails with this error at this position.
fn is_refused<T: Deserialize>(
    rt: &(impl Abort + AllocGlobal),
    encoding: &str,
    error: Asn1DerError,
    position: usize,
) {
    let given = bytes(rt, encoding);
    let refused = from_der::<T>(rt.alloc(), &given).err();
    same(
        rt,
        encoding,
        &refused,
        &Some(DecodeError { error, position }),
    );
}

fn is_no_number(
    rt: &(impl Abort + AllocGlobal),
    encoding: &str,
    error: Asn1DerError,
    position: usize,
) {
    is_refused::<u8>(rt, encoding, error, position);
}

#[test]
fn a_whole_input_is_one_value(rt: HostRuntime) {
    let bytes: &[u8] = &[0x02, 0x02, 0x00, 0x80];
    same!(rt; from_der(rt.alloc(), bytes), Ok(128u8));
}

// The position is what is read before the error: the tag for a wrong tag, the length for one that reaches past the end,
// and the content for one that isn't canonical. Bytes after the value, and a choice whose tag is only looked at, are
// not read.
#[test]
fn a_refusal_says_where_it_came(rt: HostRuntime) {
    is_no_number(&rt, "", TruncatedData, 0);
    is_no_number(&rt, "04 01 07", InvalidData, 1);
    is_no_number(&rt, "02 03 01 00", TruncatedData, 2);
    is_no_number(&rt, "02 02 00 7F", InvalidData, 4);
    is_no_number(&rt, "02 02 01 00", UnsupportedValue, 4);
    is_no_number(&rt, "02 01 07 05 00", InvalidData, 3);
    is_refused::<Vec<NumberOrFlag>>(&rt, "30 02 05 00", InvalidData, 2);
    is_refused::<Vec<ByteBuf>>(&rt, "30 06 04 01 AA 02 01 05", InvalidData, 6);
}

#[test]
fn a_refusal_is_shown_with_its_place(rt: HostRuntime) {
    let refusal = DecodeError {
        error: InvalidData,
        position: 8,
    };
    let text = format!(in rt.alloc(); "{refusal}").expect(&rt, "memory");
    same!(rt; text.as_str(), "InvalidData at byte 8");
    same!(rt; Asn1DerError::from(refusal), InvalidData);
}

// One number in a list, by `?` on what a vector returns that can't grow.
fn listed(alloc: Global, number: u8) -> DerResult<Vec<u8>> {
    let mut numbers = Vec::new(alloc);
    numbers.push(number)?;
    Ok(numbers)
}

#[test]
fn a_push_is_followed_by_a_question_mark(rt: HostRuntime) {
    same!(rt; listed(rt.alloc(), 7).map(|numbers| numbers.len()), Ok(1));
}
