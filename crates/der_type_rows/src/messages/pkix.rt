//! The types of `der_pkix`.

use crate::messages::trials::{Task, result_as};
use der_pkix::{
    AttributeCertificate, AuthorityInfoAccessSyntax, AuthorityKeyIdentifier, BaseCrlNumber,
    BasicConstraints, CertificateIssuer, CertificatePolicies, CertificationRequest,
    CrlDistributionPoints, CrlNumber, CrlReason, EcPrivateKey, EncryptedPrivateKeyInfo,
    ExtKeyUsageSyntax, FreshestCrl, IetfAttrSyntax, InhibitAnyPolicy, InvalidityDate,
    IssuerAltName, IssuingDistributionPoint, NameConstraints, PolicyConstraints, PolicyMappings,
    PrivateKeyInfo, RoleSyntax, RsaPrivateKey, RsaPublicKey, SubjectAltName,
    SubjectInfoAccessSyntax, SubjectKeyIdentifier, TargetInformation, UserNotice,
};
use std::alloc::{AllocError, Global};

/// The result of bytes of the type with this name. A name that is not in a function is in the next one, since a proof
/// about many names in one `match` takes many times as long.
pub(crate) fn result_of(
    alloc: Global,
    task: Task,
    name: &str,
    bytes: &[u8],
) -> Result<String, AllocError> {
    match name {
        "AttributeCertificate" => result_as::<AttributeCertificate>(alloc, task, bytes),
        "AuthorityInfoAccessSyntax" => result_as::<AuthorityInfoAccessSyntax>(alloc, task, bytes),
        "AuthorityKeyIdentifier" => result_as::<AuthorityKeyIdentifier>(alloc, task, bytes),
        "BaseCrlNumber" => result_as::<BaseCrlNumber>(alloc, task, bytes),
        "BasicConstraints" => result_as::<BasicConstraints>(alloc, task, bytes),
        "CertificateIssuer" => result_as::<CertificateIssuer>(alloc, task, bytes),
        "CertificatePolicies" => result_as::<CertificatePolicies>(alloc, task, bytes),
        "CertificationRequest" => result_as::<CertificationRequest>(alloc, task, bytes),
        "CrlDistributionPoints" => result_as::<CrlDistributionPoints>(alloc, task, bytes),
        _ => from_crl_number(alloc, task, name, bytes),
    }
}

fn from_crl_number(
    alloc: Global,
    task: Task,
    name: &str,
    bytes: &[u8],
) -> Result<String, AllocError> {
    match name {
        "CrlNumber" => result_as::<CrlNumber>(alloc, task, bytes),
        "CrlReason" => result_as::<CrlReason>(alloc, task, bytes),
        "EcPrivateKey" => result_as::<EcPrivateKey>(alloc, task, bytes),
        "EncryptedPrivateKeyInfo" => result_as::<EncryptedPrivateKeyInfo>(alloc, task, bytes),
        "ExtKeyUsageSyntax" => result_as::<ExtKeyUsageSyntax>(alloc, task, bytes),
        "FreshestCrl" => result_as::<FreshestCrl>(alloc, task, bytes),
        "IetfAttrSyntax" => result_as::<IetfAttrSyntax>(alloc, task, bytes),
        "InhibitAnyPolicy" => result_as::<InhibitAnyPolicy>(alloc, task, bytes),
        _ => from_invalidity_date(alloc, task, name, bytes),
    }
}

fn from_invalidity_date(
    alloc: Global,
    task: Task,
    name: &str,
    bytes: &[u8],
) -> Result<String, AllocError> {
    match name {
        "InvalidityDate" => result_as::<InvalidityDate>(alloc, task, bytes),
        "IssuerAltName" => result_as::<IssuerAltName>(alloc, task, bytes),
        "IssuingDistributionPoint" => result_as::<IssuingDistributionPoint>(alloc, task, bytes),
        "NameConstraints" => result_as::<NameConstraints>(alloc, task, bytes),
        "PolicyConstraints" => result_as::<PolicyConstraints>(alloc, task, bytes),
        "PolicyMappings" => result_as::<PolicyMappings>(alloc, task, bytes),
        "PrivateKeyInfo" => result_as::<PrivateKeyInfo>(alloc, task, bytes),
        _ => from_role_syntax(alloc, task, name, bytes),
    }
}

fn from_role_syntax(
    alloc: Global,
    task: Task,
    name: &str,
    bytes: &[u8],
) -> Result<String, AllocError> {
    match name {
        "RoleSyntax" => result_as::<RoleSyntax>(alloc, task, bytes),
        "RsaPrivateKey" => result_as::<RsaPrivateKey>(alloc, task, bytes),
        "RsaPublicKey" => result_as::<RsaPublicKey>(alloc, task, bytes),
        "SubjectAltName" => result_as::<SubjectAltName>(alloc, task, bytes),
        "SubjectInfoAccessSyntax" => result_as::<SubjectInfoAccessSyntax>(alloc, task, bytes),
        "SubjectKeyIdentifier" => result_as::<SubjectKeyIdentifier>(alloc, task, bytes),
        "TargetInformation" => result_as::<TargetInformation>(alloc, task, bytes),
        "UserNotice" => result_as::<UserNotice>(alloc, task, bytes),
        _ => String::from_str(alloc, "no type"),
    }
}
