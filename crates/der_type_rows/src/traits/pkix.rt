//! The structs and enums of `der_pkix`.

use crate::traits::has_most;
use der_pkix::{
    AaControls, AcClearAttrs, AccessDescription, AnotherName, AttCertIssuer, AttCertValidityPeriod,
    Attribute, AttributeCertificate, AttributeCertificateInfo, AuthorityKeyIdentifier,
    BasicConstraints, CertificationRequest, CertificationRequestInfo, Clearance, CrlReason,
    DigestedObjectType, DisplayText, DistributionPoint, DistributionPointName, EcPrivateKey,
    EncryptedPrivateKeyInfo, GeneralName, GeneralSubtree, Holder, IetfAttrSyntax, IetfAttrValue,
    IssuerSerial, IssuingDistributionPoint, KeyVersion, NameConstraints, NoticeReference,
    ObjectDigestInfo, OneAsymmetricKey, OtherPrimeInfo, PolicyConstraints, PolicyInformation,
    PolicyMappingsItem, PolicyQualifierInfo, RoleSyntax, RsaPrivateKey, RsaPublicKey,
    SecurityCategory, SvceAuthInfo, Target, TargetCert, UserNotice, V2Form,
};

pub(super) fn all() {
    has_most::<
        (
            AaControls,
            AcClearAttrs,
            AccessDescription,
            AnotherName,
            AttCertIssuer,
            AttCertValidityPeriod,
            Attribute,
            AttributeCertificate,
        ),
    >();
    has_most::<
        (
            AttributeCertificateInfo,
            AuthorityKeyIdentifier,
            BasicConstraints,
            CertificationRequest,
            CertificationRequestInfo,
            Clearance,
            CrlReason,
            DigestedObjectType,
        ),
    >();
    has_most::<
        (
            DisplayText,
            DistributionPoint,
            DistributionPointName,
            EcPrivateKey,
            EncryptedPrivateKeyInfo,
            GeneralName,
            GeneralSubtree,
            Holder,
        ),
    >();
    has_most::<
        (
            IetfAttrSyntax,
            IetfAttrValue,
            IssuerSerial,
            IssuingDistributionPoint,
            KeyVersion,
            NameConstraints,
            NoticeReference,
            ObjectDigestInfo,
        ),
    >();
    has_most::<
        (
            OneAsymmetricKey,
            OtherPrimeInfo,
            PolicyConstraints,
            PolicyInformation,
            PolicyMappingsItem,
            PolicyQualifierInfo,
            RoleSyntax,
            RsaPrivateKey,
        ),
    >();
    has_most::<
        (
            RsaPublicKey,
            SecurityCategory,
            SvceAuthInfo,
            Target,
            TargetCert,
            UserNotice,
            V2Form,
        ),
    >();
}
