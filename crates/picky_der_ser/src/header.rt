//! The bytes before a content that is being written: the header of the wrapper around it, and its own.
ghost use Rattle.std.specs.Prelude.{◌≡◌, ℕ, List, ◌+◌, ◌^◌, ◌<◌, ◌≤◌, ◌++◌, length, take, drop, vec_len, vec_capacity};
ghost use Rattle.std.specs.Prelude.{None, OnOk};
ghost use Rattle.picky_der_core.specs.Element.{tlv};
ghost use Rattle.picky_der_core.specs.Equality.{IsEqualityOf, IsKept};
ghost use Rattle.picky_der_core.specs.Encoding.{der};
ghost use Rattle.picky_der_core.specs.OpenWrappers.{under};
ghost use Rattle.picky_der_core.specs.Primitive.{Primitive};
ghost use Rattle.picky_der_core.specs.Tree.{Tree};
ghost use Rattle.picky_der_ser.specs.Headers.{is_set, tree_of, wrappers, keeps_headers, own_tag, front, HasNumber};
ghost use Rattle.picky_der_ser.specs.Headers.{CanAllBeOpen};

use arrayvec::ArrayVec;
use picky_der_core::asn1::{Tag, Wrapper};
use picky_der_core::misc::Length;
use std::alloc::AllocError;

/// The header of a content that is being written. Directly under an implicit tag the header of a plain value is left
/// out, and that of an application tag is kept.
#[derive(Debug, Clone, Copy, PartialEq, Eq)]
pub enum Header {
    /// The header of a plain value, as a sequence, with this tag.
    Tagged(Tag),

    /// The header of an application tag with this number.
    Application(u8),

    /// No header: the content is written as it is.
    Raw,
}

impl Header {
    /// Two are equal exactly if they are one kind with one tag or number.
    pub fn equality()
        ensures { IsEqualityOf ⟦<Header as PartialEq>⟧.eq (λ header. header) }
    {}

    /// A copy is the same header.
    pub fn copies()
        ensures { IsKept ⟦<Header as Clone>⟧.is_clone (λ header. header) }
    {}

    // Whether the members under this header are sorted.
    pub(crate) fn is_set(self) -> bool
        ensures { result ≡ is_set self }
    {
        match self {
            Header::Tagged(tag) => tag == Tag::SET,
            Header::Application(_) | Header::Raw => false,
        }
    }
}

// The tag in the content's own header. There is none before raw bytes, and directly under an implicit tag none before a
// plain value.
#[inline(always)]
pub(crate) fn own_tag(around: Option<Wrapper>, header: Header) -> Option<Tag>
    requires { HasNumber header }
    ensures { result ≡ own_tag (keeps_headers around) header }
{
    match header {
        Header::Tagged(tag) => match around {
            Some(wrapper) if !wrapper.keeps_header() => None,
            _ => Some(tag),
        },
        Header::Application(number) => Some(Tag::application_constructed(number)),
        Header::Raw => None,
    }
}

// The most bytes of a header: a tag, a length, and a byte that counts unused bits.
type Opening = ArrayVec<u8, 11>;

// A tag, the length of `len` bytes, and in a bit string before them the byte that counts no unused bits.
#[inline(always)]
fn opening(tag: Tag, has_front: bool, len: usize) -> Opening
    requires { len + 1 < 2 ^ 64 }
    ensures { (c : List ℕ) → length c ≡ len → result.items ++ c ≡ tlv tag (front has_front ++ c) }
{
    let mut bytes = Opening::new();
    bytes.push(tag.inner());
    let _ = bytes.try_extend_from_slice(&Length::bytes(usize::from(has_front) + len));
    if has_front {
        bytes.push(0x00);
    }
    bytes
}

// Adds a header before a content of `len` bytes.
#[inline(always)]
fn push_header(out: &mut Vec<u8>, tag: Tag, has_front: bool, len: usize) -> Result<(), AllocError>
    requires { len + 1 < 2 ^ 64 }
    ensures ok { OnOk result ((c : List ℕ) → length c ≡ len
        → out.new.items ++ c ≡ out.old.items ++ tlv tag (front has_front ++ c)) }
    ensures grows { vec_len out.old ≤ vec_len out.new }
{
    if !has_front && len < 0x80 {
        return out.extend_from_slice(&[tag.inner(), len as u8]);
    }
    out.extend_from_slice(&opening(tag, has_front, len))
}

// Adds all headers before a content of `len` bytes.
pub(crate) fn push_headers(
    out: &mut Vec<u8>,
    around: Option<Wrapper>,
    header: Header,
    len: usize,
) -> Result<(), AllocError>
    requires numbers { CanAllBeOpen (wrappers around) × HasNumber header }
    requires fits { len < 2 ^ 63 }
    ensures ok { OnOk result ((c : List ℕ) → length c ≡ len
        → out.new.items ++ c ≡ out.old.items ++ der (under (wrappers around) (tree_of header c))) }
    ensures grows { vec_len out.old ≤ vec_len out.new }
{
    let own = own_tag(around, header);
    if let Some(wrapper) = around {
        let own_len = if own.is_some() {
            1 + Length::encoded_len(len)
        } else {
            0
        };
        push_header(
            out,
            wrapper.tag(),
            wrapper.counts_unused_bits(),
            own_len + len,
        )?;
    }
    if let Some(tag) = own {
        push_header(out, tag, false, len)?;
    }
    Ok(())
}

// How many bytes the headers of a short content have.
pub(crate) fn room_of(around: Option<Wrapper>, header: Header) -> usize
    ensures { result ≤ 5 }
{
    match around {
        None => 2,
        Some(wrapper) if !wrapper.keeps_header() || header == Header::Raw => 2,
        Some(wrapper) if wrapper.counts_unused_bits() => 5,
        Some(_) => 4,
    }
}

// The bytes in a room before its header comes.
const BLANK: [u8; 11] = [0; 11];

// Makes the room from `at` to `start` so many bytes wide.
fn fit_room(out: &mut Vec<u8>, at: usize, start: usize, size: usize) -> Result<(), AllocError>
    requires room { at ≤ start }
    requires within { start ≤ vec_len out.old }
    requires size { size ≤ 11 }
    ensures before { OnOk result (take at out.new.items ≡ take at out.old.items) }
    ensures after { OnOk result (drop (at + size) out.new.items ≡ drop start out.old.items) }
    ensures len { OnOk result (at + size ≤ vec_len out.new) }
{
    let end = out.len();
    let first = at + size;
    if first > start {
        out.extend_from_slice(&BLANK[..first - start])?;
    }
    if first != start {
        out.copy_within(start..end, first);
        out.truncate(first + (end - start));
    }
    Ok(())
}

// Puts these bytes before the content from `start` on, in place of those from `at` to `start`.
#[inline(always)]
fn put_before(out: &mut Vec<u8>, at: usize, start: usize, bytes: &[u8]) -> Result<(), AllocError>
    requires room { at ≤ start }
    requires within { start ≤ vec_len out.old }
    requires size { length bytes.now ≤ 11 }
    ensures { OnOk result (out.new.items ≡ take at out.old.items ++ (bytes.now ++ drop start out.old.items)) }
{
    fit_room(out, at, start, bytes.len())?;
    out[at..at + bytes.len()].copy_from_slice(bytes);
    Ok(())
}

// Puts a header before the content from `start` on, in place of the bytes from `at` to `start`.
fn put_header(
    out: &mut Vec<u8>,
    at: usize,
    start: usize,
    tag: Tag,
    has_front: bool,
) -> Result<(), AllocError>
    requires room { at ≤ start }
    requires within { start ≤ vec_len out.old }
    ensures { OnOk result (out.new.items ≡ take at out.old.items
        ++ tlv tag (front has_front ++ drop start out.old.items)) }
{
    let len = out.len() - start;
    let identifier = tag.inner();
    if !has_front {
        if len < 0x80 {
            return put_before(out, at, start, &[identifier, len as u8]);
        }
        if len < 0x100 {
            return put_before(out, at, start, &[identifier, 0x81, len as u8]);
        }
        if len < 0x10000 {
            return put_before(
                out,
                at,
                start,
                &[identifier, 0x82, (len / 0x100) as u8, (len % 0x100) as u8],
            );
        }
    }
    put_before(out, at, start, &opening(tag, has_front, len))
}

// Puts all headers before the content from `start` on, in place of the bytes from `at` to `start`.
pub(crate) fn put_headers(
    out: &mut Vec<u8>,
    at: usize,
    start: usize,
    around: Option<Wrapper>,
    header: Header,
) -> Result<(), AllocError>
    requires numbers { CanAllBeOpen (wrappers around) × HasNumber header }
    requires room { at ≤ start }
    requires within { start ≤ vec_len out.old }
    ensures { OnOk result (out.new.items ≡ take at out.old.items
        ++ der (under (wrappers around) (tree_of header (drop start out.old.items)))) }
{
    let own = own_tag(around, header);
    let Some(wrapper) = around else {
        return match own {
            Some(tag) => put_header(out, at, start, tag, false),
            None => fit_room(out, at, start, 0),
        };
    };
    let mut own_at = start;
    if let Some(tag) = own {
        // Two bytes of the room are for the own header, if it has as many.
        own_at = at.max(start.saturating_sub(2));
        put_header(out, own_at, start, tag, false)?;
    }
    put_header(out, at, own_at, wrapper.tag(), wrapper.counts_unused_bits())
}

// Adds an element whose length is one byte, for which there is room.
#[inline(always)]
pub(crate) fn push_short(out: &mut Vec<u8>, tag: Tag, content: &[u8])
    requires short { length content.now < 0x80 }
    requires room { vec_len out.old + 2 + length content.now ≤ vec_capacity out.old }
    ensures items { out.new.items ≡ out.old.items ++ der (Tree.primitive (Primitive.bytes tag content.now)) }
    ensures count { length (der (Tree.primitive (Primitive.bytes tag content.now))) ≡ 2 + length content.now }
{
    // There is room, so this doesn't fail. The content of a small number, one byte, is added together with its header.
    if content.len() == 1 {
        let _ = out.extend_from_slice(&[tag.inner(), 1, content[0]]);
    } else {
        let _ = out.extend_from_slice(&[tag.inner(), content.len() as u8]);
        let _ = out.extend_from_slice(content);
    }
}

// Adds bytes for which there is room.
#[inline(always)]
pub(crate) fn push_few(out: &mut Vec<u8>, bytes: &[u8])
    requires { vec_len out.old + length bytes.now ≤ vec_capacity out.old }
    ensures { out.new.items ≡ out.old.items ++ bytes.now }
{
    // There is room, so this doesn't fail.
    let _ = out.extend_from_slice(bytes);
}
