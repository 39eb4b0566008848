//! Writes messages that are made from nothing by the constructors of their types, in hexadecimal.
#![tactic(auto)]

mod certification;
mod key;
mod tickets;

use certification::certificate_request;
use picky_asn1_der::to_vec;
use tickets::as_req;

fn main(rt: HostRuntime) -> anyhow::Result<()> {
    let alloc = rt.alloc();
    let request = certificate_request(alloc, "device.example", &key::POINT, &key::SIGNATURE)?;
    let request = hex::encode_upper(alloc, to_vec(alloc, &request)?)?;
    println!(rt; "certificate request {request}")?;
    let request = as_req(alloc, "alice", "EXAMPLE.ORG", 20261130)?;
    let request = hex::encode_upper(alloc, to_vec(alloc, &request)?)?;
    println!(rt; "AS-REQ {request}")?;
    Ok(())
}
