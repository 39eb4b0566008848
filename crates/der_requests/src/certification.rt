//! A request for a certificate (RFC 2986).
ghost use Rattle.std.specs.Prelude.{◌≡◌, ◌∷◌, IfOk};

use anyhow::Context;
use der_elements::AnyElement;
use der_pkix::{CertificationRequest, CertificationRequestInfo, named};
use der_types::{BitString, Contents, InRange, ObjectIdentifier, WithSize, names};
use der_x509::{AlgorithmIdentifier, AttributeTypeAndValue, Name, SubjectPublicKeyInfo};
use named::certification_request_info_version::V1;
use picky_asn1_der::asn1::Asn1SetOf;
use std::alloc::Global;

// The name of one attribute, a common name.
fn common_name(alloc: Global, text: &str) -> anyhow::Result<Name> {
    let kind = ObjectIdentifier::from_bytes(alloc, names::COMMON_NAME)?;
    let value = AnyElement::from_value(alloc, &String::from_str(alloc, text)?)?;
    let attribute = AttributeTypeAndValue::new(kind, value);
    let step = Asn1SetOf(vec![in alloc; attribute]?);
    let step = WithSize::new(step).context("a step of a name has an attribute")?;
    Ok(Name::RdnSequence(vec![in alloc; step]?))
}

// A key on the curve P-256, by its point (RFC 5480, 2).
fn public_key(alloc: Global, point: &[u8]) -> anyhow::Result<SubjectPublicKeyInfo> {
    let curve = ObjectIdentifier::from_bytes(alloc, names::SECP256R1)?;
    let algorithm = ObjectIdentifier::from_bytes(alloc, names::EC_PUBLIC_KEY)?;
    let parameters = AnyElement::from_value(alloc, &curve)?;
    let algorithm = AlgorithmIdentifier::new(algorithm).with_parameters(parameters);
    let point = BitString::from_bytes(alloc, point, 0)?;
    Ok(SubjectPublicKeyInfo::new(algorithm, point))
}

/// Returns the request of this name for a certificate of this key, a point of P-256, with this signature by ECDSA.
pub fn certificate_request(
    alloc: Global,
    name: &str,
    point: &[u8],
    signature: &[u8],
) -> anyhow::Result<CertificationRequest>
    ensures { IfOk result (λ it. ⟦<BitString as Contents>⟧.content it.signature ≡ 0 ∷ signature.now) }
{
    let version = InRange::new(V1).context("the version is 0")?;
    let subject = common_name(alloc, name)?;
    let key = public_key(alloc, point)?;
    let attributes = Asn1SetOf(Vec::new(alloc));
    let info = CertificationRequestInfo::new(version, subject, key, attributes);
    let algorithm = ObjectIdentifier::from_bytes(alloc, names::ECDSA_WITH_SHA256)?;
    let algorithm = AlgorithmIdentifier::new(algorithm);
    let signature = BitString::from_bytes(alloc, signature, 0)?;
    Ok(CertificationRequest::new(info, algorithm, signature))
}
