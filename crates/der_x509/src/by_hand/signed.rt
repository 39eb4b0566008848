//! The bytes that signatures sign.
ghost use Rattle.std.specs.Prelude.{◌≡◌, ◌≤◌, length, IfOk, IfErr, slice_range};
ghost use Rattle.picky_der_core.specs.Encoding.{der};
ghost use Rattle.picky_der_core.specs.Readable.{IsWritable};
ghost use Rattle.picky_der_ser.specs.Calls.{MemoryExcuse};
ghost use Rattle.picky_der_de.specs.Whole.{IsWhole, IsNoEncoding};

use crate::{Certificate, CertificateList, TbsCertList, TbsCertificate};
use picky_asn1_der::{
    DecodeError, Deserialize, Result, Serialize, Signed, from_der_signed, to_vec,
};
use std::alloc::Global;
use std::result::Result as StdResult;

impl Certificate {
    /// Reads a certificate from its encoding, and returns where the bytes that the signature signs are: those of
    /// `tbs_certificate`. They are the bytes of the input, and needn't be written again. The errors are those of
    /// `from_der`.
    pub fn from_der_signed(
        alloc: Global,
        bytes: &[u8],
    ) -> StdResult<Signed<Certificate>, DecodeError>
        ensures value { IfOk result (λ it. IsWhole ⟦<Certificate as Serialize>⟧.meaning
            ⟦<Certificate as Deserialize>⟧.shape ⟦<Certificate as PartialEq>⟧.eq bytes.now it.value) }
        ensures part { IfOk result (λ it. slice_range bytes.now it.part.start it.part.end
            ≡ der (⟦<TbsCertificate as Serialize>⟧.meaning it.value.tbs_certificate)) }
        ensures within { IfOk result (λ it. (it.part.start ≤ it.part.end)
            × (it.part.end ≤ length bytes.now)) }
        ensures err { IfErr result (λ refusal. IsNoEncoding ⟦<Certificate as Serialize>⟧.meaning
            ⟦<Certificate as Deserialize>⟧.shape bytes.now refusal.error refusal.position) }
    {
        from_der_signed(alloc, bytes)
    }

    /// Returns the bytes that the signature signs: the encoding of `tbs_certificate`. For a certificate that was read,
    /// these are exactly its bytes in the input, since DER has one encoding of each value.
    ///
    /// `OutOfMemory` if an allocation fails, and `UnsupportedValue` if the value can't be written. A value that was
    /// read can be written.
    pub fn signed_bytes(&self, alloc: Global) -> Result<Vec<u8>>
        ensures ok { IfOk result (λ bytes. bytes.items
            ≡ der (⟦<TbsCertificate as Serialize>⟧.meaning self.now.tbs_certificate)) }
        ensures err { IfErr result (MemoryExcuse (IsWritable
            (⟦<TbsCertificate as Serialize>⟧.meaning self.now.tbs_certificate))) }
    {
        to_vec(alloc, &self.tbs_certificate)
    }
}

impl CertificateList {
    /// Reads a list from its encoding, and returns where the bytes that the signature signs are: those of
    /// `tbs_cert_list`. They are the bytes of the input, and needn't be written again. The errors are those of
    /// `from_der`.
    pub fn from_der_signed(
        alloc: Global,
        bytes: &[u8],
    ) -> StdResult<Signed<CertificateList>, DecodeError>
        ensures value { IfOk result (λ it. IsWhole ⟦<CertificateList as Serialize>⟧.meaning
            ⟦<CertificateList as Deserialize>⟧.shape ⟦<CertificateList as PartialEq>⟧.eq bytes.now it.value) }
        ensures part { IfOk result (λ it. slice_range bytes.now it.part.start it.part.end
            ≡ der (⟦<TbsCertList as Serialize>⟧.meaning it.value.tbs_cert_list)) }
        ensures within { IfOk result (λ it. (it.part.start ≤ it.part.end)
            × (it.part.end ≤ length bytes.now)) }
        ensures err { IfErr result (λ refusal. IsNoEncoding ⟦<CertificateList as Serialize>⟧.meaning
            ⟦<CertificateList as Deserialize>⟧.shape bytes.now refusal.error refusal.position) }
    {
        from_der_signed(alloc, bytes)
    }

    /// Returns the bytes that the signature signs: the encoding of `tbs_cert_list`. Its errors are those of
    /// [`Certificate::signed_bytes`].
    pub fn signed_bytes(&self, alloc: Global) -> Result<Vec<u8>>
        ensures ok { IfOk result (λ bytes. bytes.items
            ≡ der (⟦<TbsCertList as Serialize>⟧.meaning self.now.tbs_cert_list)) }
        ensures err { IfErr result (MemoryExcuse (IsWritable
            (⟦<TbsCertList as Serialize>⟧.meaning self.now.tbs_cert_list))) }
    {
        to_vec(alloc, &self.tbs_cert_list)
    }
}
