//! The types of `der_status`.

use crate::messages::trials::{Task, result_as};
use der_status::{
    BasicOcspResponse, OcspRequest, OcspResponse, TimeStampReq, TimeStampResp, TstInfo,
};
use std::alloc::{AllocError, Global};

/// The result of bytes of the type with this name.
pub(crate) fn result_of(
    alloc: Global,
    task: Task,
    name: &str,
    bytes: &[u8],
) -> Result<String, AllocError> {
    match name {
        "BasicOcspResponse" => result_as::<BasicOcspResponse>(alloc, task, bytes),
        "OcspRequest" => result_as::<OcspRequest>(alloc, task, bytes),
        "OcspResponse" => result_as::<OcspResponse>(alloc, task, bytes),
        "TimeStampReq" => result_as::<TimeStampReq>(alloc, task, bytes),
        "TimeStampResp" => result_as::<TimeStampResp>(alloc, task, bytes),
        "TstInfo" => result_as::<TstInfo>(alloc, task, bytes),
        _ => String::from_str(alloc, "no type"),
    }
}
