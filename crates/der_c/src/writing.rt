//! Elements, written one after another into a buffer of the caller.
ghost use Rattle.std.specs.Prelude.{◌≡◌, ◌+◌, ◌≤◌, ◌∷◌, length, MatchBool};
ghost use Rattle.picky_der_core.specs.Element.{tlv, length_octets};
ghost use Rattle.der_show.specs.Members.{IsSetContent, IsNoSetContent};
ghost use Rattle.der_c.specs.Writing.{IsPut, IsWrapped, put_over};

use crate::code::{
    PICKY_DER_NO_PLACE, PICKY_DER_NO_ROOM, PICKY_DER_OK, PICKY_DER_UNSUPPORTED, rule_code,
};
use der_show::{Rule, are_in_set_order};
use picky_der_core::asn1::Tag;
use picky_der_core::misc::Length;

/// Appends an element with this tag and content to the first `used` bytes of `out`, and adds its size to `used`.
///
/// Returns PICKY_DER_OK, or PICKY_DER_NO_ROOM if `out` is too small. Then `out` is as it was, but `used` still grows,
/// so that the same calls with no room tell how many bytes are needed. Returns PICKY_DER_UNSUPPORTED if so many bytes
/// can't be counted, and then nothing changes.
#[unsafe(no_mangle)]
pub extern "C" fn picky_der_put(out: &mut [u8], used: &mut usize, tag: u8, content: &[u8]) -> u32
    ensures { IsPut (tlv tag content.now) out.old out.new used.old used.new result }
{
    let at = *used;
    let size = 1 + Length::encoded_len(content.len()) + content.len();
    let Some(end) = at.checked_add(size) else {
        return PICKY_DER_UNSUPPORTED;
    };
    *used = end;
    if end > out.len() {
        return PICKY_DER_NO_ROOM;
    }
    put_at(out, at, tag, content);
    PICKY_DER_OK
}

// Appends bytes to the first `used` bytes of `out`, as picky_der_put appends an element.
pub(crate) fn append(out: &mut [u8], used: &mut usize, bytes: &[u8]) -> u32
    ensures { IsPut bytes.now out.old out.new used.old used.new result }
{
    let at = *used;
    let Some(end) = at.checked_add(bytes.len()) else {
        return PICKY_DER_UNSUPPORTED;
    };
    *used = end;
    if end > out.len() {
        return PICKY_DER_NO_ROOM;
    }
    out[at..end].copy_from_slice(bytes);
    PICKY_DER_OK
}

/// Makes the bytes from `start` to `used` the content of one element with this tag, and adds the size of its header to
/// `used`. These bytes are what was written since `used` was `start`.
///
/// Returns PICKY_DER_OK, or PICKY_DER_NO_ROOM if `out` is too small, as picky_der_put does. Returns
/// PICKY_DER_RULE_SET_ORDER if the tag is that of a SET, 0x31, and its members are neither in the order of their tags
/// nor in that of their encodings; PICKY_DER_NO_PLACE if `start` is past `used`; and PICKY_DER_UNSUPPORTED if so many
/// bytes can't be counted. Then nothing changes.
#[unsafe(no_mangle)]
pub extern "C" fn picky_der_wrap(out: &mut [u8], used: &mut usize, start: usize, tag: u8) -> u32
    ensures { IsWrapped tag start out.old out.new used.old used.new result }
{
    let before = *used;
    if start > before {
        return PICKY_DER_NO_PLACE;
    }
    let len = before - start;
    let size = 1 + Length::encoded_len(len);
    let Some(end) = before.checked_add(size) else {
        return PICKY_DER_UNSUPPORTED;
    };
    if end > out.len() {
        *used = end;
        return PICKY_DER_NO_ROOM;
    }
    if !is_in_order(tag, &out[start..before]) {
        return rule_code(Rule::SetOrder);
    }
    *used = end;
    out.copy_within(start..before, start + size);
    put_header(out, start, tag, len);
    PICKY_DER_OK
}

// Whether the bytes may be the content of an element with this tag: the members of a SET have to be in order.
fn is_in_order(tag: u8, content: &[u8]) -> bool
    ensures { MatchBool result (tag ≡ 0x31 → IsSetContent content.now)
        ((tag ≡ 0x31) × IsNoSetContent content.now) }
{
    tag != Tag::SET.inner() || are_in_set_order(content)
}

// Writes the element at that index.
fn put_at(out: &mut [u8], at: usize, tag: u8, content: &[u8])
    requires { at + length (tlv tag content.now) ≤ length out.old }
    ensures { out.new ≡ put_over out.old at (tlv tag content.now) }
{
    let start = put_header(out, at, tag, content.len());
    out[start..start + content.len()].copy_from_slice(content);
}

// Writes a tag and a length at that index, and returns the index after them.
fn put_header(out: &mut [u8], at: usize, tag: u8, len: usize) -> usize
    requires { at + length (tag ∷ length_octets len) ≤ length out.old }
    ensures next { result ≡ at + length (tag ∷ length_octets len) }
    ensures put { out.new ≡ put_over out.old at (tag ∷ length_octets len) }
{
    let octets = Length::bytes(len);
    let end = at + 1 + octets.len();
    out[at] = tag;
    out[at + 1..end].copy_from_slice(&octets);
    end
}
