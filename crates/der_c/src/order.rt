//! The members of a SET OF, put in order.
ghost use Rattle.std.specs.Prelude.{IfOk};
ghost use Rattle.der_c.specs.Order.{AreArranged, AreCut, AreSorted};

use crate::code::{
    PICKY_DER_NO_MEMORY, PICKY_DER_NO_PLACE, PICKY_DER_NO_ROOM, PICKY_DER_OK, rule_code,
};
use der_show::{Rule, header_of};
use std::alloc::{AllocError, Global};

/// Puts the elements from `start` to `used` in the order of their encodings, in which the members of a SET OF are.
/// picky_der_wrap then makes them the content of an element with the tag 0x31.
///
/// Returns PICKY_DER_OK. Else it returns the code of the rule that a header breaks, PICKY_DER_NO_PLACE if `start` is
/// past `used`, PICKY_DER_NO_ROOM if `out` has fewer than `used` bytes, or PICKY_DER_NO_MEMORY if an allocation failed.
/// Then nothing changes.
#[unsafe(no_mangle)]
pub extern "C" fn picky_der_sort(alloc: Global, out: &mut [u8], used: usize, start: usize) -> u32
    ensures { AreSorted start used out.old out.new result }
{
    if start > used {
        return PICKY_DER_NO_PLACE;
    }
    if used > out.len() {
        return PICKY_DER_NO_ROOM;
    }
    match arranged(alloc, &out[start..used]) {
        Ok(Ok(members)) => {
            out[start..used].copy_from_slice(&members);
            PICKY_DER_OK
        }
        Ok(Err(rule)) => rule_code(rule),
        Err(_) => PICKY_DER_NO_MEMORY,
    }
}

// The elements of which the bytes are made, in ascending order one after another, or the rule that a header breaks.
fn arranged(alloc: Global, bytes: &[u8]) -> Result<Result<Vec<u8>, Rule>, AllocError>
    ensures { IfOk result (AreArranged bytes.now) }
{
    match cut(alloc, bytes)? {
        Ok(mut members) => {
            members.sort()?;
            Ok(Ok(members.concat(alloc)?))
        }
        Err(rule) => Ok(Err(rule)),
    }
}

// The elements of which the bytes are made, or the rule that a header breaks.
fn cut<'a>(alloc: Global, bytes: &'a [u8]) -> Result<Result<Vec<&'a [u8]>, Rule>, AllocError>
    ensures { IfOk result (AreCut bytes.now) }
{
    let mut members = Vec::new(alloc);
    let mut rest = bytes;
    while !rest.is_empty() {
        match header_of(rest) {
            Ok(header) => {
                let (member, others) = rest.split_at(header.header_len + header.content_len);
                members.push(member)?;
                rest = others;
            }
            Err(rule) => return Ok(Err(rule)),
        }
    }
    Ok(Ok(members))
}
