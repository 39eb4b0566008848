//! The structs and enums of `der_cms`.

use crate::traits::has_most;
use der_cms::{
    Attribute, AuthEnvelopedData, AuthenticatedData, CertificateChoices, ContentInfo, DigestedData,
    EncapsulatedContentInfo, EncryptedContentInfo, EncryptedData, EnvelopedData,
    IssuerAndSerialNumber, KekIdentifier, KekRecipientInfo, KeyAgreeRecipientIdentifier,
    KeyAgreeRecipientInfo, KeyTransRecipientInfo, OriginatorIdentifierOrKey, OriginatorInfo,
    OriginatorPublicKey, OtherCertificateFormat, OtherKeyAttribute, OtherRecipientInfo,
    OtherRevocationInfoFormat, PasswordRecipientInfo, RecipientEncryptedKey, RecipientIdentifier,
    RecipientInfo, RecipientKeyIdentifier, RevocationInfoChoice, SignedData, SignerIdentifier,
    SignerInfo, Time,
};

pub(super) fn all() {
    has_most::<
        (
            Attribute,
            AuthEnvelopedData,
            AuthenticatedData,
            CertificateChoices,
            ContentInfo,
            DigestedData,
            EncapsulatedContentInfo,
            EncryptedContentInfo,
        ),
    >();
    has_most::<
        (
            EncryptedData,
            EnvelopedData,
            IssuerAndSerialNumber,
            KekIdentifier,
            KekRecipientInfo,
            KeyAgreeRecipientIdentifier,
            KeyAgreeRecipientInfo,
            KeyTransRecipientInfo,
        ),
    >();
    has_most::<
        (
            OriginatorIdentifierOrKey,
            OriginatorInfo,
            OriginatorPublicKey,
            OtherCertificateFormat,
            OtherKeyAttribute,
            OtherRecipientInfo,
            OtherRevocationInfoFormat,
            PasswordRecipientInfo,
        ),
    >();
    has_most::<
        (
            RecipientEncryptedKey,
            RecipientIdentifier,
            RecipientInfo,
            RecipientKeyIdentifier,
            RevocationInfoChoice,
            SignedData,
            SignerIdentifier,
            SignerInfo,
        ),
    >();
    has_most::<Time>();
}
