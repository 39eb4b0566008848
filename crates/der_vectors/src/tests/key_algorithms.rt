//! Algorithms of keys, as `openssl pkey -pubout` (3.0.19) and Python's `cryptography` (48.0.0) write them.

use crate::tests::checks::{is_refused, read_back};
use der_examples::{KeyAlgorithm, KeyParameters};
use der_types::names;
use picky_asn1_der::Asn1DerError;
use picky_asn1_der::Asn1DerError::{InvalidData, TruncatedData};
use std::process::Abort;

// The algorithms of RSA, P-256, P-384 and Ed25519.
const RSA: &str = "30 0D 06 09 2A 86 48 86 F7 0D 01 01 01 05 00";

const P_256: &str = "30 13 06 07 2A 86 48 CE 3D 02 01 06 08 2A 86 48 CE 3D 03 01 07";

const P_384: &str = "30 10 06 07 2A 86 48 CE 3D 02 01 06 05 2B 81 04 00 22";

const ED25519: &str = "30 05 06 03 2B 65 70";

fn algorithm(rt: &(impl Abort + AllocGlobal), encoding: &str) -> KeyAlgorithm {
    read_back::<KeyAlgorithm>(rt, encoding)
}

fn is_none(rt: &(impl Abort + AllocGlobal), encoding: &str, error: Asn1DerError) {
    is_refused::<KeyAlgorithm>(rt, encoding, error);
}

#[test]
fn the_identifier_says_what_the_parameters_are(rt: HostRuntime) {
    let rsa = algorithm(&rt, RSA);
    same!(rt; rsa.identifier().is(names::RSA_ENCRYPTION), true);
    same!(rt; matches!(rsa.parameters(), KeyParameters::Null(_)), true);
    let ed25519 = algorithm(&rt, ED25519);
    same!(rt; matches!(ed25519.parameters(), KeyParameters::Other(None)), true);
    same!(rt; rsa == ed25519, false);
}

#[test]
fn a_curve_has_a_name(rt: HostRuntime) {
    let p_256 = algorithm(&rt, P_256);
    same!(rt; curve_of(&p_256), names::SECP256R1);
    let p_384 = algorithm(&rt, P_384);
    same!(rt; curve_of(&p_384), names::SECP384R1);
    same!(rt; p_256 == p_384, false);
}

// The name of the curve, or no bytes if the algorithm has none.
fn curve_of(algorithm: &KeyAlgorithm) -> &[u8] {
    match algorithm.parameters() {
        KeyParameters::Curve(curve) => curve.value().content(),
        _ => &[],
    }
}

// For RSA: no parameters, and an INTEGER. For a curve: no parameters, a NULL, and a SEQUENCE as `openssl ecparam
// -param_enc explicit` writes one.
#[test]
fn other_parameters_are_refused(rt: HostRuntime) {
    is_none(&rt, "30 0B 06 09 2A 86 48 86 F7 0D 01 01 01", InvalidData);
    is_none(
        &rt,
        "30 0E 06 09 2A 86 48 86 F7 0D 01 01 01 02 01 00",
        InvalidData,
    );
    is_none(&rt, "30 09 06 07 2A 86 48 CE 3D 02 01", InvalidData);
    is_none(&rt, "30 0B 06 07 2A 86 48 CE 3D 02 01 05 00", InvalidData);
    is_none(
        &rt,
        "30 0E 06 07 2A 86 48 CE 3D 02 01 30 03 02 01 01",
        InvalidData,
    );
    is_none(
        &rt,
        "30 0D 06 09 2A 86 48 86 F7 0D 01 01 01 05",
        TruncatedData,
    );
    algorithm(&rt, "30 07 06 03 2B 65 70 05 00");
}
