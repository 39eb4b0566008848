//! The types of `der_algorithms`.

use crate::messages::trials::{Task, result_as};
use der_algorithms::{
    AesIv, CharacteristicTwo, Curve, DomainParameters, DssParms, DssSigValue, EcParameters,
    EcdsaSigValue, EcpkParameters, FieldId, GcmParameters, PbeParameter, Pbes2Params, Pbkdf2Params,
    Pentanomial, PrimeP, Rc2CbcParameter, RsaesOaepParams, RsassaPssParams, ScryptParams,
    Trinomial,
};
use std::alloc::{AllocError, Global};

/// The result of bytes of the type with this name. A name that is not in a function is in the next one, since a proof
/// about many names in one `match` takes many times as long.
pub(crate) fn result_of(
    alloc: Global,
    task: Task,
    name: &str,
    bytes: &[u8],
) -> Result<String, AllocError> {
    match name {
        "AesIv" => result_as::<AesIv>(alloc, task, bytes),
        "CharacteristicTwo" => result_as::<CharacteristicTwo>(alloc, task, bytes),
        "Curve" => result_as::<Curve>(alloc, task, bytes),
        "DomainParameters" => result_as::<DomainParameters>(alloc, task, bytes),
        "DssParms" => result_as::<DssParms>(alloc, task, bytes),
        "DssSigValue" => result_as::<DssSigValue>(alloc, task, bytes),
        "EcParameters" => result_as::<EcParameters>(alloc, task, bytes),
        _ => from_ecdsa_sig_value(alloc, task, name, bytes),
    }
}

fn from_ecdsa_sig_value(
    alloc: Global,
    task: Task,
    name: &str,
    bytes: &[u8],
) -> Result<String, AllocError> {
    match name {
        "EcdsaSigValue" => result_as::<EcdsaSigValue>(alloc, task, bytes),
        "EcpkParameters" => result_as::<EcpkParameters>(alloc, task, bytes),
        "FieldId" => result_as::<FieldId>(alloc, task, bytes),
        "GcmParameters" => result_as::<GcmParameters>(alloc, task, bytes),
        "PbeParameter" => result_as::<PbeParameter>(alloc, task, bytes),
        "Pbes2Params" => result_as::<Pbes2Params>(alloc, task, bytes),
        "Pbkdf2Params" => result_as::<Pbkdf2Params>(alloc, task, bytes),
        "Pentanomial" => result_as::<Pentanomial>(alloc, task, bytes),
        _ => from_prime_p(alloc, task, name, bytes),
    }
}

fn from_prime_p(alloc: Global, task: Task, name: &str, bytes: &[u8]) -> Result<String, AllocError> {
    match name {
        "PrimeP" => result_as::<PrimeP>(alloc, task, bytes),
        "Rc2CbcParameter" => result_as::<Rc2CbcParameter>(alloc, task, bytes),
        "RsaesOaepParams" => result_as::<RsaesOaepParams>(alloc, task, bytes),
        "RsassaPssParams" => result_as::<RsassaPssParams>(alloc, task, bytes),
        "ScryptParams" => result_as::<ScryptParams>(alloc, task, bytes),
        "Trinomial" => result_as::<Trinomial>(alloc, task, bytes),
        _ => String::from_str(alloc, "no type"),
    }
}
