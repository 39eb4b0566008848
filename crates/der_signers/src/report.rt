//! What is found of a signer.
ghost use Rattle.std.specs.Prelude.{◌≡◌, All, Some, IfOk, IfErr, option_map};
ghost use Rattle.std.specs.List.{AllZip};
ghost use Rattle.std.specs.Option.{option_copied};
ghost use Rattle.der_signers.specs.Attributes.{attributes_of};
ghost use Rattle.der_signers.specs.Digest.{content_of};
ghost use Rattle.der_signers.specs.Report.{IsWritableSigner, AreWritable, IsComparison, type_encoding, is_data};
ghost use Rattle.der_signers.specs.Report.{is_listed, is_algorithm, signs_without_digest, signed_part, signed_digest};
ghost use Rattle.der_signers.specs.Report.{digest_signed, IsReport};

use crate::DigestAlgorithm;
use crate::algorithm::algorithm_name;
use crate::attributes::{compare_type, has_message_digest, required_attributes};
use crate::comparison::{DigestComparison, RequiredAttributes, TypeComparison};
use crate::encoding::encoding_of;
use crate::line_ends::with_cr_lf;
use crate::who::{Who, who_of};
use der_cms::{Attribute, SignedData, SignerInfo, values};
use der_types::{ObjectIdentifier, names};
use der_x509::AlgorithmIdentifier;
use picky_asn1_der::{Asn1DerError, Result};
use std::alloc::Global;

/// What is found of a signer. Its signature isn't verified.
#[derive(Debug, Drop)]
pub struct Report {
    /// Who it is.
    pub who: Who,
    /// The name of its digest algorithm.
    pub digest: String,
    /// The name of its signature algorithm.
    pub signature: String,
    /// Whether the attribute `messageDigest` is the digest of the content.
    pub message_digest: DigestComparison,
    /// Whether the attribute `contentType` is the type of the content.
    pub content_type: TypeComparison,
    /// Whether it has the signed attributes that it must have.
    pub attributes: RequiredAttributes,
    /// Whether its digest algorithm is among those that the message lists. It should be, and verifiers may refuse a
    /// message where it isn't (RFC 5652, 5.3), as OpenSSL does.
    pub is_listed: bool,
    /// What it signed.
    pub signed: Signed,
    /// The digest of what it signed, with the signed attributes as a SET OF with the tag 31 (RFC 5652, 5.4). `None` if
    /// the digest algorithm isn't computed here, the content is what is signed and isn't at hand, or the signature
    /// algorithm signs without a digest.
    pub signed_digest: Option<Vec<u8>>,
}

/// What a signature is over (RFC 5652, 5.4).
#[derive(Debug, Clone, Copy, PartialEq, Eq)]
pub enum Signed {
    /// The signed attributes.
    Attributes,
    /// The content, where there are no signed attributes.
    Content,
}

// The reports on the signers of a message, in order, for the content at hand. The only error is `OutOfMemory`.
pub fn reports_of(
    alloc: Global,
    signed_data: &SignedData,
    content: Option<&[u8]>,
) -> Result<Vec<Report>>
    requires { AreWritable signed_data.now }
    ensures ok { IfOk result (λ reports. AllZip (IsReport signed_data.now (option_copied content.entry))
        signed_data.now.signer_infos.0.items reports.items) }
    ensures err { IfErr result (λ e. e ≡ Asn1DerError.OutOfMemory) }
{
    let content_type = encoding_of(alloc, &signed_data.encap_content_info.e_content_type)?;
    reports_on(
        alloc,
        signed_data,
        &content_type,
        &signed_data.signer_infos.0,
        content,
    )
}

// The reports on these signers of a message whose content has the type with this encoding.
fn reports_on(
    alloc: Global,
    signed_data: &SignedData,
    content_type: &[u8],
    signers: &[SignerInfo],
    content: Option<&[u8]>,
) -> Result<Vec<Report>>
    requires writable { All IsWritableSigner signers.now }
    requires content_type { content_type.now ≡ type_encoding signed_data.now }
    ensures ok { IfOk result (λ reports. AllZip (IsReport signed_data.now (option_copied content.entry))
        signers.now reports.items) }
    ensures err { IfErr result (λ e. e ≡ Asn1DerError.OutOfMemory) }
{
    let mut reports = Vec::new(alloc);
    for signer in signers {
        let report = report_of(alloc, signed_data, content_type, signer, content)?;
        reports.push(report)?;
    }
    Ok(reports)
}

// The report on a signer of a message whose content has the type with this encoding.
fn report_of(
    alloc: Global,
    signed_data: &SignedData,
    content_type: &[u8],
    signer: &SignerInfo,
    content: Option<&[u8]>,
) -> Result<Report>
    requires writable { IsWritableSigner signer.now }
    requires content_type { content_type.now ≡ type_encoding signed_data.now }
    ensures ok { IfOk result (IsReport signed_data.now (option_copied content.entry) signer.now) }
    ensures err { IfErr result (λ e. e ≡ Asn1DerError.OutOfMemory) }
{
    let identifier = &signer.digest_algorithm.algorithm;
    let algorithm = DigestAlgorithm::of(identifier);
    Ok(Report {
        who: who_of(alloc, &signer.sid)?,
        digest: algorithm_name(alloc, identifier)?,
        signature: algorithm_name(alloc, &signer.signature_algorithm.algorithm)?,
        message_digest: compare(alloc, signer, algorithm, content)?,
        content_type: compare_type(signer, content_type),
        attributes: required_attributes(signer, is_data(signed_data)),
        is_listed: is_listed(signed_data, identifier),
        signed: signed_part(signer),
        signed_digest: signed_digest(alloc, signer, algorithm, content)?,
    })
}

// Whether the signer's attribute `messageDigest` is the digest of the content.
fn compare(
    alloc: Global,
    signer: &SignerInfo,
    algorithm: Option<DigestAlgorithm>,
    content: Option<&[u8]>,
) -> Result<DigestComparison>
    ensures ok { IfOk result (IsComparison (attributes_of signer.now) algorithm
        (option_copied content.entry)) }
    ensures err { IfErr result (λ e. e ≡ Asn1DerError.OutOfMemory) }
{
    let Some(attributes) = &signer.signed_attrs else {
        return Ok(DigestComparison::NoAttributes);
    };
    let Some(algorithm) = algorithm else {
        return Ok(DigestComparison::UnknownAlgorithm);
    };
    let Some(content) = content else {
        return Ok(DigestComparison::NoContent);
    };
    compare_content(alloc, &attributes.0.get().0, algorithm, content)
}

// Whether the attribute `messageDigest` is the digest of this content.
fn compare_content(
    alloc: Global,
    attributes: &[Attribute],
    algorithm: DigestAlgorithm,
    content: &[u8],
) -> Result<DigestComparison>
    ensures ok { IfOk result (IsComparison (Some attributes.now) (Some algorithm)
        (Some content.now)) }
    ensures err { IfErr result (λ e. e ≡ Asn1DerError.OutOfMemory) }
{
    let digest = algorithm.digest(alloc, content)?;
    if has_message_digest(alloc, attributes, &digest)? {
        return Ok(DigestComparison::Same);
    }
    let text = with_cr_lf(alloc, content)?;
    let digest = algorithm.digest(alloc, &text)?;
    if has_message_digest(alloc, attributes, &digest)? {
        Ok(DigestComparison::OtherLineEnds)
    } else {
        Ok(DigestComparison::Different)
    }
}

// Whether the content is of type `id-data`.
fn is_data(signed_data: &SignedData) -> bool
    ensures { result ≡ is_data signed_data.now }
{
    signed_data
        .encap_content_info
        .e_content_type
        .is(values::ID_DATA)
}

// Whether a digest algorithm is among those that the message lists.
fn is_listed(signed_data: &SignedData, identifier: &ObjectIdentifier) -> bool
    ensures { result ≡ is_listed signed_data.now (content_of identifier.now) }
{
    signed_data
        .digest_algorithms
        .0
        .iter()
        .any(|it| is_algorithm(it, identifier))
}

// Whether an algorithm is the one with this identifier, whatever its parameters are.
fn is_algorithm(algorithm: &AlgorithmIdentifier, identifier: &ObjectIdentifier) -> bool
    ensures { result ≡ is_algorithm (content_of identifier.now) algorithm.now }
{
    algorithm.algorithm.is(identifier.content())
}

// What a signature is over.
fn signed_part(signer: &SignerInfo) -> Signed
    ensures { result ≡ signed_part (attributes_of signer.now) }
{
    match &signer.signed_attrs {
        Some(_) => Signed::Attributes,
        None => Signed::Content,
    }
}

// Whether an algorithm signs without a digest (RFC 8419, 2.3 and 3.1).
fn signs_without_digest(signature: &ObjectIdentifier) -> bool
    ensures { result ≡ signs_without_digest (content_of signature.now) }
{
    signature.is(names::ED25519) || signature.is(names::ED448)
}

// The digest of what is signed.
fn signed_digest(
    alloc: Global,
    signer: &SignerInfo,
    algorithm: Option<DigestAlgorithm>,
    content: Option<&[u8]>,
) -> Result<Option<Vec<u8>>>
    requires { IsWritableSigner signer.now }
    ensures ok { IfOk result (λ digest. option_map (λ d. d.items) digest
        ≡ signed_digest signer.now algorithm (option_copied content.entry)) }
    ensures err { IfErr result (λ e. e ≡ Asn1DerError.OutOfMemory) }
{
    if signs_without_digest(&signer.signature_algorithm.algorithm) {
        return Ok(None);
    }
    digest_signed(alloc, signer, algorithm, content)
}

// The digest of what is signed, by an algorithm that signs a digest.
fn digest_signed(
    alloc: Global,
    signer: &SignerInfo,
    algorithm: Option<DigestAlgorithm>,
    content: Option<&[u8]>,
) -> Result<Option<Vec<u8>>>
    requires { IsWritableSigner signer.now }
    ensures ok { IfOk result (λ digest. option_map (λ d. d.items) digest
        ≡ digest_signed (attributes_of signer.now) algorithm (option_copied content.entry)) }
    ensures err { IfErr result (λ e. e ≡ Asn1DerError.OutOfMemory) }
{
    let Some(algorithm) = algorithm else {
        return Ok(None);
    };
    if let Some(attributes) = &signer.signed_attrs {
        let bytes = encoding_of(alloc, &attributes.0)?;
        return Ok(Some(algorithm.digest(alloc, &bytes)?));
    }
    let Some(content) = content else {
        return Ok(None);
    };
    Ok(Some(algorithm.digest(alloc, content)?))
}
