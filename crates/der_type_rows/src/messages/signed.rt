//! The bytes that signatures sign: parts of messages, where they are in the input.
ghost use Rattle.std.specs.Prelude.{◌≡◌, IfOk, slice_range};
ghost use Rattle.picky_der_core.specs.Encoding.{der};

use der_cms::{ContentInfo, SignedData, values};
use der_fixtures::text_of;
use der_pkix::{
    AttributeCertificate, AttributeCertificateInfo, CertificationRequest, CertificationRequestInfo,
};
use der_status::{BasicOcspResponse, ResponseData};
use der_x509::{Certificate, CertificateList};
use picky_asn1_der::{Asn1DerError, Signed, from_der_signed, part_range};
use picky_der_core::Result as DerResult;
use picky_der_de::{DecodeError, from_der};
use picky_der_ser::Serialize;
use std::alloc::{AllocError, Global};
use std::result::Result;

/// Returns the signed bytes of a message of the type with this name.
pub(crate) fn part_of(alloc: Global, name: &str, bytes: &[u8]) -> Result<String, AllocError> {
    let signed = match name {
        "der_cms::ContentInfo" => of_message(alloc, bytes),
        "der_cms::SignedData" => of_signed_data(alloc, bytes),
        "der_pkix::AttributeCertificate" => bytes_of(alloc, bytes, read_attributes(alloc, bytes)),
        "der_pkix::CertificationRequest" => bytes_of(alloc, bytes, read_request(alloc, bytes)),
        "der_status::BasicOcspResponse" => bytes_of(alloc, bytes, read_response(alloc, bytes)),
        "der_x509::Certificate" => bytes_of(
            alloc,
            bytes,
            Certificate::from_der_signed(alloc, bytes),
        ),
        "der_x509::CertificateList" => bytes_of(
            alloc,
            bytes,
            CertificateList::from_der_signed(alloc, bytes),
        ),
        _ => return String::from_str(alloc, "no type"),
    };
    match signed {
        Ok(bytes) => text_of(alloc, &bytes),
        Err(error) => format!(in alloc; "refused {error}"),
    }
}

fn read_attributes(alloc: Global, bytes: &[u8]) -> Result<Signed<AttributeCertificate>, DecodeError>
    ensures { IfOk result (λ it. slice_range bytes.now it.part.start it.part.end
        ≡ der (⟦<AttributeCertificateInfo as Serialize>⟧.meaning it.value.acinfo)) }
{
    from_der_signed(alloc, bytes)
}

fn read_request(alloc: Global, bytes: &[u8]) -> Result<Signed<CertificationRequest>, DecodeError>
    ensures { IfOk result (λ it. slice_range bytes.now it.part.start it.part.end
        ≡ der (⟦<CertificationRequestInfo as Serialize>⟧.meaning
        it.value.certification_request_info)) }
{
    from_der_signed(alloc, bytes)
}

fn read_response(alloc: Global, bytes: &[u8]) -> Result<Signed<BasicOcspResponse>, DecodeError>
    ensures { IfOk result (λ it. slice_range bytes.now it.part.start it.part.end
        ≡ der (⟦<ResponseData as Serialize>⟧.meaning it.value.tbs_response_data)) }
{
    from_der_signed(alloc, bytes)
}

// The bytes of a signed part.
fn bytes_of<T: Drop>(
    alloc: Global,
    bytes: &[u8],
    read: Result<Signed<T>, DecodeError>,
) -> DerResult<Vec<u8>> {
    let signed = read?;
    match bytes.get(signed.part.start..signed.part.end) {
        Some(part) => Ok(part.to_vec(alloc)?),
        None => Err(Asn1DerError::InvalidData),
    }
}

// The signed attributes of a message, or no bytes if it isn't signed.
fn of_message(alloc: Global, bytes: &[u8]) -> DerResult<Vec<u8>> {
    let message: ContentInfo = from_der(alloc, bytes)?;
    if message.content_type.is(values::ID_SIGNED_DATA) {
        return of_signed_data(alloc, message.content.0.as_bytes());
    }
    Ok(Vec::new(alloc))
}

// The signed attributes of each signer as a SET OF, one after another (RFC 5652, 5.4).
fn of_signed_data(alloc: Global, bytes: &[u8]) -> DerResult<Vec<u8>> {
    let data: SignedData = from_der(alloc, bytes)?;
    let mut signed = Vec::new(alloc);
    for (index, signer) in data.signer_infos.0.iter().enumerate() {
        if signer.signed_attrs.is_some() {
            // After the version, the identifier of the signer and the digest algorithm.
            push_as_set(&mut signed, bytes, &[signers_index(&data), index, 3])?;
        }
    }
    Ok(signed)
}

// The index of `signerInfos` among the members that are there.
fn signers_index(data: &SignedData) -> usize {
    3 + usize::from(data.certificates.is_some()) + usize::from(data.crls.is_some())
}

// Adds the list at a path, with the tag of a SET OF in place of its own.
fn push_as_set(signed: &mut Vec<u8>, bytes: &[u8], path: &[usize]) -> DerResult<()> {
    let Some(part) = part_range(bytes, path) else {
        return Err(Asn1DerError::InvalidData);
    };
    let Some([_, after @ ..]) = bytes.get(part.start..part.end) else {
        return Err(Asn1DerError::InvalidData);
    };
    signed.push(0x31)?;
    signed.extend_from_slice(after)?;
    Ok(())
}
