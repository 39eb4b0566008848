//! The structs and enums of `der_x509`.

use crate::traits::has_most;
use der_x509::{
    AlgorithmIdentifier, AttributeTypeAndValue, Certificate, CertificateList, Extension, KeyUsage,
    KeyUsageFlag, Name, RevokedCertificate, SubjectPublicKeyInfo, TbsCertList, TbsCertificate,
    Time, Validity, Version,
};

pub(super) fn all() {
    has_most::<
        (
            AlgorithmIdentifier,
            AttributeTypeAndValue,
            Certificate,
            CertificateList,
            Extension,
            KeyUsage,
            KeyUsageFlag,
            Name,
        ),
    >();
    has_most::<
        (
            RevokedCertificate,
            SubjectPublicKeyInfo,
            TbsCertList,
            TbsCertificate,
            Time,
            Validity,
            Version,
        ),
    >();
}
