//! Types of which some value is readable.
ghost use Rattle.std.specs.Prelude.{true, Some};
ghost use Rattle.picky_der_core.specs.Tree.{ListKind};
ghost use Rattle.picky_der_de.specs.Examples.{HasReadable, empty_vec, empty_text, no_text, no_octets_readable};
ghost use Rattle.picky_der_de.specs.Examples.{letter_readable, empty_list_readable};

use crate::Deserialize;
use picky_der_core::asn1::{
    Asn1SequenceOf, Asn1SetOf, BitStringAsn1Container, ByteBuf, OctetStringAsn1Container,
};

/// A type of which some value is readable. Of a type without such a value nothing can be read, so that all promises
/// about it are empty.
pub trait Inhabited: Deserialize {
    // A readable value.
    ghost example: { HasReadable Self.meaning };
}

impl Inhabited for bool {
    ghost example = { (true, tt) };
}

impl Inhabited for ByteBuf {
    ghost example = { (record { 0 = empty_vec }, no_octets_readable) };
}

impl Inhabited for char {
    ghost example = { (0x61, letter_readable) };
}

impl Inhabited for String {
    ghost example = { (empty_text, no_text) };
}

impl Inhabited for () {
    ghost example = { (tt, tt) };
}

impl<T: Inhabited> Inhabited for Option<T> {
    ghost example = { (Some T.example.0, T.example.1) };
}

impl<T: Deserialize> Inhabited for Vec<T> {
    ghost example = { (empty_vec, empty_list_readable ListKind.sequence) };
}

impl<T: Deserialize> Inhabited for Asn1SequenceOf<T> {
    ghost example = { (record { 0 = empty_vec }, empty_list_readable ListKind.sequence) };
}

impl<T: Deserialize> Inhabited for Asn1SetOf<T> {
    ghost example = { (record { 0 = empty_vec }, empty_list_readable ListKind.set) };
}

impl<T: Inhabited> Inhabited for OctetStringAsn1Container<T> {
    ghost example = { (record { 0 = T.example.0 }, (tt, tt, T.example.1)) };
}

impl<T: Inhabited> Inhabited for BitStringAsn1Container<T> {
    ghost example = { (record { 0 = T.example.0 }, (tt, tt, T.example.1)) };
}
