//! The structs and enums of `der_algorithms`.

use crate::traits::has_most;
use der_algorithms::{
    CcmParameters, CharacteristicTwo, Curve, DomainParameters, DssParms, DssSigValue, EcParameters,
    EcdsaSigValue, EcpkParameters, FieldId, GcmParameters, PbeParameter, Pbes2Params, Pbkdf2Params,
    Pbkdf2Salt, Pbmac1Params, Pentanomial, Rc2CbcParameter, RsaesOaepParams, RsassaPssParams,
    ScryptParams, ValidationParms,
};

pub(super) fn all() {
    has_most::<
        (
            CcmParameters,
            CharacteristicTwo,
            Curve,
            DomainParameters,
            DssParms,
            DssSigValue,
            EcParameters,
            EcdsaSigValue,
        ),
    >();
    has_most::<
        (
            EcpkParameters,
            FieldId,
            GcmParameters,
            PbeParameter,
            Pbes2Params,
            Pbkdf2Params,
            Pbkdf2Salt,
            Pbmac1Params,
        ),
    >();
    has_most::<
        (
            Pentanomial,
            Rc2CbcParameter,
            RsaesOaepParams,
            RsassaPssParams,
            ScryptParams,
            ValidationParms,
        ),
    >();
}
