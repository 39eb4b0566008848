//! A request for a first ticket of Kerberos (RFC 4120, 5.4.1).
ghost use Rattle.std.specs.Prelude.{◌≡◌, IfOk};

use anyhow::Context;
use der_kerberos::{AsReq, AsReqMembers, KdcReqBody, KerberosString, PrincipalName};
use der_types::{BitString, DateTime, GeneralizedTime, InRange, WithSize};
use picky_asn1_der::application_tag::ApplicationTag;
use std::alloc::Global;

// The types of names (RFC 4120, 6.2).
const PRINCIPAL: i32 = 1;

const SERVICE_AND_INSTANCE: i32 = 2;

// The types of encryption: aes256-cts-hmac-sha1-96 and aes128-cts-hmac-sha1-96 (RFC 3962, 7).
const AES256: i32 = 18;

const AES128: i32 = 17;

// The options: forwardable, renewable and canonicalize, which are the bits 1, 8 and 15 (RFC 4120, 5.4.1; RFC 6806, 3).
const OPTIONS: [u8; 4] = [0x40, 0x81, 0x00, 0x00];

/// Returns the request of this client to the service of tickets of this realm, until 2037-09-13 02:48:05.
pub fn as_req(alloc: Global, client: &str, realm: &str, nonce: u32) -> anyhow::Result<AsReq>
    ensures { IfOk result (λ it. it.0.req_body.0.nonce.0 ≡ nonce) }
{
    let name = KerberosString::from_str(alloc, client)?;
    let client = PrincipalName::new(PRINCIPAL, vec![in alloc; name]?);
    let service = KerberosString::from_str(alloc, "krbtgt")?;
    let instance = KerberosString::from_str(alloc, realm)?;
    let service = PrincipalName::new(SERVICE_AND_INSTANCE, vec![in alloc; service, instance]?);
    let options = BitString::from_bytes(alloc, &OPTIONS, 0)?;
    let till = DateTime::new(2037, 9, 13, 2, 48, 5).context("it is a time")?;
    let till = GeneralizedTime::from_date_time(alloc, till)?;
    let body = KdcReqBody::new(
        WithSize::new(options).context("there are 32 options")?,
        KerberosString::from_str(alloc, realm)?,
        WithSize::new(till).context("it has no fraction")?,
        nonce,
        vec![in alloc; AES256, AES128]?,
    )
    .with_cname(client)
    .with_sname(service);
    let version = InRange::new(5).context("the version is 5")?;
    let kind = InRange::new(10).context("the type is 10")?;
    Ok(ApplicationTag(AsReqMembers::new(version, kind, body)))
}
