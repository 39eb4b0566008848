//! The types of `der_kerberos`.

use crate::messages::trials::{Task, result_as};
use der_kerberos::{
    AdIfRelevant, ApRep, ApReq, AsRep, AsReq, Authenticator, AuthorizationData, EncApRepPart,
    EncAsRepPart, EncKrbCredPart, EncKrbPrivPart, EncTgsRepPart, EncTicketPart, EtypeInfo2,
    KrbCred, KrbError, KrbPriv, KrbSafe, MethodData, PaEncTimestamp, PaEncTsEnc, TgsRep, TgsReq,
    Ticket,
};
use std::alloc::{AllocError, Global};

/// The result of bytes of the type with this name. A name that is not in a function is in the next one, since a proof
/// about many names in one `match` takes many times as long.
pub(crate) fn result_of(
    alloc: Global,
    task: Task,
    name: &str,
    bytes: &[u8],
) -> Result<String, AllocError> {
    match name {
        "AdIfRelevant" => result_as::<AdIfRelevant>(alloc, task, bytes),
        "ApRep" => result_as::<ApRep>(alloc, task, bytes),
        "ApReq" => result_as::<ApReq>(alloc, task, bytes),
        "AsRep" => result_as::<AsRep>(alloc, task, bytes),
        "AsReq" => result_as::<AsReq>(alloc, task, bytes),
        "Authenticator" => result_as::<Authenticator>(alloc, task, bytes),
        "AuthorizationData" => result_as::<AuthorizationData>(alloc, task, bytes),
        "EncApRepPart" => result_as::<EncApRepPart>(alloc, task, bytes),
        "EncAsRepPart" => result_as::<EncAsRepPart>(alloc, task, bytes),
        _ => from_enc_krb_cred_part(alloc, task, name, bytes),
    }
}

fn from_enc_krb_cred_part(
    alloc: Global,
    task: Task,
    name: &str,
    bytes: &[u8],
) -> Result<String, AllocError> {
    match name {
        "EncKrbCredPart" => result_as::<EncKrbCredPart>(alloc, task, bytes),
        "EncKrbPrivPart" => result_as::<EncKrbPrivPart>(alloc, task, bytes),
        "EncTgsRepPart" => result_as::<EncTgsRepPart>(alloc, task, bytes),
        "EncTicketPart" => result_as::<EncTicketPart>(alloc, task, bytes),
        "EtypeInfo2" => result_as::<EtypeInfo2>(alloc, task, bytes),
        "KrbCred" => result_as::<KrbCred>(alloc, task, bytes),
        "KrbError" => result_as::<KrbError>(alloc, task, bytes),
        "KrbPriv" => result_as::<KrbPriv>(alloc, task, bytes),
        _ => from_krb_safe(alloc, task, name, bytes),
    }
}

fn from_krb_safe(
    alloc: Global,
    task: Task,
    name: &str,
    bytes: &[u8],
) -> Result<String, AllocError> {
    match name {
        "KrbSafe" => result_as::<KrbSafe>(alloc, task, bytes),
        "MethodData" => result_as::<MethodData>(alloc, task, bytes),
        "PaEncTimestamp" => result_as::<PaEncTimestamp>(alloc, task, bytes),
        "PaEncTsEnc" => result_as::<PaEncTsEnc>(alloc, task, bytes),
        "TgsRep" => result_as::<TgsRep>(alloc, task, bytes),
        "TgsReq" => result_as::<TgsReq>(alloc, task, bytes),
        "Ticket" => result_as::<Ticket>(alloc, task, bytes),
        _ => String::from_str(alloc, "no type"),
    }
}
