//! Signed attributes (RFC 5652, 5.3 and 11).
ghost use Rattle.std.specs.Prelude.{◌≡◌, ◌≤◌, ◌↔◌, [], ◌∷◌, length, All, IsTrue, IfOk, IfErr, Some};
ghost use Rattle.der_signers.specs.Attributes.{attributes_of, is_kind, has_kind, values_of, Agrees, HasOnlyValue};
ghost use Rattle.der_signers.specs.Attributes.{HasMessageDigest, IsTypeComparison, completeness, required_attributes};

use crate::comparison::{RequiredAttributes, TypeComparison};
use crate::encoding::encoding_of;
use der_cms::{Attribute, SignerInfo, values};
use picky_asn1_der::asn1::Bytes;
use picky_asn1_der::{Asn1DerError, Result};
use std::alloc::Global;

// Whether exactly one of the attributes is a `messageDigest`, and this digest is its only value. The only error is
// `OutOfMemory`.
pub fn has_message_digest(alloc: Global, attributes: &[Attribute], digest: &[u8]) -> Result<bool>
    requires { length digest.now ≤ 64 }
    ensures ok { IfOk result (λ has. IsTrue has ↔ HasMessageDigest attributes.now digest.now) }
    ensures err { IfErr result (λ e. e ≡ Asn1DerError.OutOfMemory) }
{
    let value = encoding_of(alloc, &Bytes(digest))?;
    Ok(has_only_value(attributes, values::ID_MESSAGE_DIGEST, &value))
}

// Whether the attribute `contentType` of a signer is the type with this encoding.
pub fn compare_type(signer: &SignerInfo, encoding: &[u8]) -> TypeComparison
    ensures { IsTypeComparison (attributes_of signer.now) encoding.now result }
{
    match &signer.signed_attrs {
        Some(attributes) => compare_type_in(&attributes.0.get().0, encoding),
        None => TypeComparison::Absent,
    }
}

// Whether the attribute `contentType` among these is the type with this encoding.
fn compare_type_in(attributes: &[Attribute], encoding: &[u8]) -> TypeComparison
    ensures { IsTypeComparison (Some attributes.now) encoding.now result }
{
    if !has_kind(attributes, values::ID_CONTENT_TYPE) {
        TypeComparison::Absent
    } else if has_only_value(attributes, values::ID_CONTENT_TYPE, encoding) {
        TypeComparison::Same
    } else {
        TypeComparison::Different
    }
}

// Whether a signer has the attributes that it must have, for a content that is of type `id-data` or of another one.
pub fn required_attributes(signer: &SignerInfo, is_data: bool) -> RequiredAttributes
    ensures { result ≡ required_attributes (attributes_of signer.now) is_data }
{
    match &signer.signed_attrs {
        Some(attributes) => completeness(&attributes.0.get().0),
        None if is_data => RequiredAttributes::NotNeeded,
        None => RequiredAttributes::Missing,
    }
}

// Whether `contentType` and `messageDigest` are among the attributes.
fn completeness(attributes: &[Attribute]) -> RequiredAttributes
    ensures { result ≡ completeness attributes.now }
{
    if has_kind(attributes, values::ID_CONTENT_TYPE)
        && has_kind(attributes, values::ID_MESSAGE_DIGEST)
    {
        RequiredAttributes::Complete
    } else {
        RequiredAttributes::Incomplete
    }
}

// Whether exactly one of the attributes is of this kind, and this element is its only value.
fn has_only_value(attributes: &[Attribute], kind: &[u8], value: &[u8]) -> bool
    ensures { IsTrue result ↔ HasOnlyValue kind.now value.now attributes.now }
{
    let count = attributes.iter().filter(|it| is_kind(*it, kind)).count();
    count == 1 && all_agree(attributes, kind, value)
}

// Whether one of the attributes is of this kind.
fn has_kind(attributes: &[Attribute], kind: &[u8]) -> bool
    ensures { result ≡ has_kind kind.now attributes.now }
{
    attributes.iter().any(|it| is_kind(it, kind))
}

// Whether the attribute is of this kind, which is the content of an object identifier.
fn is_kind(attribute: &Attribute, kind: &[u8]) -> bool
    ensures { result ≡ is_kind kind.now attribute.now }
{
    attribute.attr_type.is(kind)
}

// Whether this element is the only value of each attribute of this kind.
fn all_agree(attributes: &[Attribute], kind: &[u8], value: &[u8]) -> bool
    ensures { IsTrue result ↔ All (Agrees kind.now value.now) attributes.now }
{
    attributes
        .iter()
        .all(|attribute| agrees(attribute, kind, value))
}

// Whether this element is the attribute's only value, if it is of this kind.
fn agrees(attribute: &Attribute, kind: &[u8], value: &[u8]) -> bool
    ensures { IsTrue result ↔ Agrees kind.now value.now attribute.now }
{
    !is_kind(attribute, kind) || is_only_value(attribute, value)
}

// Whether this element is the only value of the attribute.
fn is_only_value(attribute: &Attribute, value: &[u8]) -> bool
    ensures { IsTrue result ↔ (values_of attribute.now ≡ value.now ∷ []) }
{
    match attribute.attr_values.0.as_slice() {
        [only] => only.as_bytes() == value,
        _ => false,
    }
}
