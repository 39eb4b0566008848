//! The structs and enums of `der_pkcs12`.

use crate::traits::has_most;
use der_pkcs12::{
    CertBag, CrlBag, DigestInfo, MacData, PFX, Pkcs12Attribute, Pkcs12PbeParams, SafeBag, SecretBag,
};

pub(super) fn all() {
    has_most::<
        (
            CertBag,
            CrlBag,
            DigestInfo,
            MacData,
            PFX,
            Pkcs12Attribute,
            Pkcs12PbeParams,
            SafeBag,
        ),
    >();
    has_most::<SecretBag>();
}
