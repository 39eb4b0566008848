//! The structs and enums of `der_status`.

use crate::traits::has_most;
use der_status::{
    Accuracy, BasicOcspResponse, CertId, CertStatus, MessageImprint, OcspRequest, OcspResponse,
    OcspResponseStatus, PkiStatusInfo, Request, ResponderId, ResponseBytes, ResponseData,
    RevokedInfo, Signature, SingleResponse, TbsRequest, TimeStampReq, TimeStampResp, TstInfo,
};

pub(super) fn all() {
    has_most::<
        (
            Accuracy,
            BasicOcspResponse,
            CertId,
            CertStatus,
            MessageImprint,
            OcspRequest,
            OcspResponse,
            OcspResponseStatus,
        ),
    >();
    has_most::<
        (
            PkiStatusInfo,
            Request,
            ResponderId,
            ResponseBytes,
            ResponseData,
            RevokedInfo,
            Signature,
            SingleResponse,
        ),
    >();
    has_most::<(TbsRequest, TimeStampReq, TimeStampResp, TstInfo)>();
}
