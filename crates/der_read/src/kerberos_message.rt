//! A message of Kerberos.
ghost use Rattle.std.specs.Prelude.{refl};
ghost use Rattle.picky_der_core.specs.Shape.{Shape};
ghost use Rattle.picky_der_de.specs.declared.alternatives.OneOf.TheVariants.{This, Other};
ghost use Rattle.picky_der_de.specs.declared.choice4.Choice4.TheVariants.{First, Second, Third, Fourth, Later};
ghost use Rattle.picky_der_de.specs.ChoiceFacts.{choice_facts};
ghost use Rattle.der_read.specs.declared.kerberos_message.KerberosMessage.TheVariants.{AsReq, AsRep, TgsReq, TgsRep};
ghost use Rattle.der_read.specs.declared.kerberos_message.KerberosMessage.TheVariants.{ApReq};
ghost use Rattle.der_read.specs.declared.kerberos_message.KerberosMessage.TheVariants.{ApRep, KrbSafe, KrbPriv};
ghost use Rattle.der_read.specs.declared.kerberos_message.KerberosMessage.TheVariants.{KrbCred};
ghost use Rattle.der_read.specs.declared.kerberos_message.KerberosMessage.TheVariants.{KrbError};

use der_kerberos::{
    ApRep, ApReq, AsRep, AsReq, KrbCred, KrbError, KrbPriv, KrbSafe, TgsRep, TgsReq,
};
use picky_asn1_der::Choice4::{First, Fourth, Later, Second, Third};
use picky_asn1_der::OneOf::{Other, This};
use picky_asn1_der::de::deserialize_choice_as;
use picky_asn1_der::misc::{ReadExt, WriteExt};
use picky_asn1_der::{
    Alternatives, Choice, Choice4, Deserialize, Deserializer, NoneOf, OneOf, Result, Serialize,
    Serializer,
};

/// One of the messages of Kerberos (RFC 4120, 5.4 to 5.9), as a CHOICE. Its application tag says which one it is.
#[derive(Debug, Drop, PartialEq, Eq)]
pub enum KerberosMessage {
    /// `[APPLICATION 10]` (RFC 4120, 5.4.1).
    AsReq(AsReq),
    /// `[APPLICATION 11]` (RFC 4120, 5.4.2).
    AsRep(AsRep),
    /// `[APPLICATION 12]` (RFC 4120, 5.4.1).
    TgsReq(TgsReq),
    /// `[APPLICATION 13]` (RFC 4120, 5.4.2).
    TgsRep(TgsRep),
    /// `[APPLICATION 14]` (RFC 4120, 5.5.1).
    ApReq(ApReq),
    /// `[APPLICATION 15]` (RFC 4120, 5.5.2).
    ApRep(ApRep),
    /// `[APPLICATION 20]` (RFC 4120, 5.6.1).
    KrbSafe(KrbSafe),
    /// `[APPLICATION 21]` (RFC 4120, 5.7.1).
    KrbPriv(KrbPriv),
    /// `[APPLICATION 22]` (RFC 4120, 5.8.1).
    KrbCred(KrbCred),
    /// `[APPLICATION 30]` (RFC 4120, 5.9.1).
    KrbError(KrbError),
}

type Parts = Choice4<
    AsReq,
    AsRep,
    TgsReq,
    TgsRep,
    Choice4<ApReq, ApRep, KrbSafe, KrbPriv, OneOf<KrbCred, OneOf<KrbError, NoneOf>>>,
>;

impl Choice for KerberosMessage {
    type Alternatives = Parts;

    ghost parts = { elim [
      | AsReq x ↦ First x
      | AsRep x ↦ Second x
      | TgsReq x ↦ Third x
      | TgsRep x ↦ Fourth x
      | ApReq x ↦ Later (First x)
      | ApRep x ↦ Later (Second x)
      | KrbSafe x ↦ Later (Third x)
      | KrbPriv x ↦ Later (Fourth x)
      | KrbCred x ↦ Later (Later (This x))
      | KrbError x ↦ Later (Later (Other (This x)))
    ] };

    fn from_parts(value: Parts) -> KerberosMessage {
        match value {
            First(as_req) => KerberosMessage::AsReq(as_req),
            Second(as_rep) => KerberosMessage::AsRep(as_rep),
            Third(tgs_req) => KerberosMessage::TgsReq(tgs_req),
            Fourth(tgs_rep) => KerberosMessage::TgsRep(tgs_rep),
            Later(First(ap_req)) => KerberosMessage::ApReq(ap_req),
            Later(Second(ap_rep)) => KerberosMessage::ApRep(ap_rep),
            Later(Third(krb_safe)) => KerberosMessage::KrbSafe(krb_safe),
            Later(Fourth(krb_priv)) => KerberosMessage::KrbPriv(krb_priv),
            Later(Later(This(krb_cred))) => KerberosMessage::KrbCred(krb_cred),
            Later(Later(Other(This(krb_error)))) => KerberosMessage::KrbError(krb_error),
        }
    }
}

impl Serialize for KerberosMessage {
    ghost meaning = { λ v. ⟦<Parts as Alternatives>⟧.meaning (⟦<KerberosMessage as Choice>⟧.parts v) };

    fn serialize<W: WriteExt>(&self, serializer: &mut Serializer<W>) -> Result<usize> {
        match self {
            KerberosMessage::AsReq(as_req) => serializer.serialize_choice(as_req),
            KerberosMessage::AsRep(as_rep) => serializer.serialize_choice(as_rep),
            KerberosMessage::TgsReq(tgs_req) => serializer.serialize_choice(tgs_req),
            KerberosMessage::TgsRep(tgs_rep) => serializer.serialize_choice(tgs_rep),
            KerberosMessage::ApReq(ap_req) => serializer.serialize_choice(ap_req),
            KerberosMessage::ApRep(ap_rep) => serializer.serialize_choice(ap_rep),
            KerberosMessage::KrbSafe(krb_safe) => serializer.serialize_choice(krb_safe),
            KerberosMessage::KrbPriv(krb_priv) => serializer.serialize_choice(krb_priv),
            KerberosMessage::KrbCred(krb_cred) => serializer.serialize_choice(krb_cred),
            KerberosMessage::KrbError(krb_error) => serializer.serialize_choice(krb_error),
        }
    }
}

impl Deserialize for KerberosMessage {
    ghost shape = { Shape.choice ⟦<Parts as Alternatives>⟧.shapes };

    ghost facts = { choice_facts ⟦<Parts as Alternatives>⟧.facts refl ⟦<Self as Choice>⟧.parts ⟦<Self as PartialEq>⟧.eq
        (elim [ AsReq _ ↦ elim [ AsReq _ ↦ λ h. h | _ ↦ λ h. h ] | _ ↦ elim [ AsReq _ ↦ λ h. h | _ ↦ λ h. h ] ]) };

    ghost proved = { Prim.assumption };

    fn deserialize<R: ReadExt>(deserializer: &mut Deserializer<R>) -> Result<KerberosMessage> {
        deserialize_choice_as(deserializer)
    }
}
