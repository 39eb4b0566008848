//! The order of the elements of a SET OF (X.690, 11.6).
ghost use Rattle.std.specs.Prelude.{◌≤◌, IfOk, OnOk, IfErr, IsTrue, map, take, drop, vec_len};
ghost use Rattle.picky_der_core.specs.Element.{IsElement};
ghost use Rattle.der_ber_types.specs.Order.{AreElements, AreInOrder};
ghost use Rattle.der_ber_types.specs.Pushed.{IsAppended};
ghost use Rattle.der_ber_types.specs.Refusals.{IsRefusal, AreNoElements, AreNotInOrder};

use crate::error::TypeError;
use der_path::first_element;
use std::alloc::Global;

// Puts the elements from a place on in ascending order.
pub(crate) fn put_in_order(alloc: Global, der: &mut Vec<u8>, place: usize) -> Result<(), TypeError>
    requires { place ≤ vec_len der.old }
    ensures ok { OnOk result (IsAppended (AreInOrder (drop place der.old.items))
        (take place der.old.items) der.new.items) }
    ensures none { IfErr result (IsRefusal (AreNotInOrder (drop place der.old.items))) }
{
    let elements = &der[place..];
    if is_element(elements) {
        return Ok(());
    }
    let ordered = in_order(alloc, elements)?;
    der.truncate(place);
    Ok(der.extend_from_slice(&ordered)?)
}

// Whether the bytes are one element.
fn is_element(bytes: &[u8]) -> bool
    ensures { IsTrue result → IsElement bytes.now }
{
    match first_element(bytes) {
        Some(first) => first.after.is_empty(),
        None => false,
    }
}

// The elements of which the bytes are made, in ascending order one after another.
fn in_order(alloc: Global, bytes: &[u8]) -> Result<Vec<u8>, TypeError>
    ensures ok { IfOk result (λ ordered. AreInOrder bytes.now ordered.items) }
    ensures none { IfErr result (IsRefusal (AreNotInOrder bytes.now)) }
{
    let mut elements = cut(alloc, bytes)?;
    elements.sort()?;
    Ok(elements.concat(alloc)?)
}

// The elements of which the bytes are made.
fn cut<'a>(alloc: Global, bytes: &'a [u8]) -> Result<Vec<&'a [u8]>, TypeError>
    ensures ok { IfOk result (λ elements. AreElements (map (λ e. e.now) elements.items) bytes.now) }
    ensures none { IfErr result (IsRefusal (AreNoElements bytes.now)) }
{
    let mut elements = Vec::new(alloc);
    let mut rest = bytes;
    while !rest.is_empty() {
        let Some(first) = first_element(rest) else {
            return Err(TypeError::OtherType);
        };
        let (element, after) = rest.split_at(rest.len() - first.after.len());
        elements.push(element)?;
        rest = after;
    }
    Ok(elements)
}
