//! The structs and enums of `der_kerberos`.

use crate::traits::has_most;
use der_kerberos::{
    AdAndOr, AdKdcIssued, ApRepMembers, ApReqMembers, AsRepMembers, AsReqMembers,
    AuthenticatorMembers, AuthorizationDataItem, Checksum, EncApRepPartMembers, EncKdcRepPart,
    EncKrbCredPartMembers, EncKrbPrivPartMembers, EncTicketPartMembers, EncryptedData,
    EncryptionKey, EtypeInfo2Entry, EtypeInfoEntry, HostAddress, KdcReqBody, KrbCredInfo,
    KrbCredMembers, KrbErrorMembers, KrbPrivMembers, KrbSafeBody, KrbSafeMembers, LastReqItem,
    PaData, PaEncTsEnc, PrincipalName, TgsRepMembers, TgsReqMembers, TicketMembers,
    TransitedEncoding, TypedDataItem,
};

pub(super) fn all() {
    has_most::<
        (
            AdAndOr,
            AdKdcIssued,
            ApRepMembers,
            ApReqMembers,
            AsRepMembers,
            AsReqMembers,
            AuthenticatorMembers,
            AuthorizationDataItem,
        ),
    >();
    has_most::<
        (
            Checksum,
            EncApRepPartMembers,
            EncKdcRepPart,
            EncKrbCredPartMembers,
            EncKrbPrivPartMembers,
            EncTicketPartMembers,
            EncryptedData,
            EncryptionKey,
        ),
    >();
    has_most::<
        (
            EtypeInfo2Entry,
            EtypeInfoEntry,
            HostAddress,
            KdcReqBody,
            KrbCredInfo,
            KrbCredMembers,
            KrbErrorMembers,
            KrbPrivMembers,
        ),
    >();
    has_most::<
        (
            KrbSafeBody,
            KrbSafeMembers,
            LastReqItem,
            PaData,
            PaEncTsEnc,
            PrincipalName,
            TgsRepMembers,
            TgsReqMembers,
        ),
    >();
    has_most::<(TicketMembers, TransitedEncoding, TypedDataItem)>();
}
