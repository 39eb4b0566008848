//! Lengths (X.690, 8.1.3 and 10.1).
ghost use Rattle.std.specs.Prelude.{◌≡◌, ◌≢◌, ◌+◌, ◌^◌, ◌<◌, ◌≤◌, ℕ, length, IfOk, OnOk, OnErr, IfErr};
ghost use Rattle.std.specs.Prelude.{IfSome};
ghost use Rattle.std.specs.Io.KnownBytes.{Appends, Consumes};
ghost use Rattle.picky_der_core.specs.Element.{length_octets, IsPrefix};
ghost use Rattle.picky_der_core.specs.Writer.{AppendsTooFew};
ghost use Rattle.picky_der_core.specs.WriterFaults.{WriterFails};
ghost use Rattle.picky_der_core.specs.Lengths.{IsReadAs, IsRefusedAs, IsOfDevice, IsLongCount, IsNoLongCount};
ghost use Rattle.picky_der_core.specs.Reader.{ReportsFault};
ghost use Rattle.picky_der_core.specs.Refusal.{length_of};

use super::{ReadExt, WriteExt};
use crate::{Asn1DerError, Result};
use arrayvec::ArrayVec;

/// The length of a content in canonical DER (X.690, 8.1.3 and 10.1): one byte below 128. Else a byte `80+k` and the `k`
/// bytes of the number, as few as possible.
pub struct Length;

impl Length {
    /// Reads a length and returns it, in bytes.
    ///
    /// `TruncatedData` if a byte is missing. `InvalidData` for `80`, for a first length byte 00, and for a number below
    /// 128 in the long form. `UnsupportedValue` for a first byte past `88`. Any other error is the reader's.
    ///
    /// If the first byte announces no length, only this byte is consumed. Else all length bytes are consumed before
    /// they are refused.
    pub fn deserialized<R: ReadExt>(reader: &mut R) -> Result<usize>
        ensures ok { IfOk result (λ n. Consumes (R.remaining reader.old) (R.remaining reader.new)
            (length_octets n)) }
        ensures read { IfOk result (IsReadAs (length_of Asn1DerError.TruncatedData)
            (R.remaining reader.old) (R.remaining reader.new)) }
        ensures refused { IfErr result (λ e. R.faults reader.new ≡ R.faults reader.old
            → IsRefusedAs (length_of Asn1DerError.TruncatedData) (R.remaining reader.old)
            (R.remaining reader.new) e) }
        ensures none { OnErr result (R.faults reader.new ≡ R.faults reader.old
            → IfSome (R.remaining reader.old)
            (λ bs. (n : ℕ) → n < 2 ^ 64 → IsPrefix (length_octets n) bs → ⊥)) }
        ensures fault { IfErr result (ReportsFault (R.faults reader.old) (R.faults reader.new)
            (R.remaining reader.new)) }
        ensures device { IfErr result (λ e. R.faults reader.new ≡ R.faults reader.old
            → IsOfDevice e → ⊥) }
        ensures no_fault { OnOk result (R.faults reader.new ≡ R.faults reader.old) }
        ensures same_references { R.references reader.new ≡ R.references reader.old }
    {
        let first = reader.read_one()?;
        if first < 0x80 {
            return Ok(usize::from(first));
        }
        let count = Length::long_count(first)?;
        let mut len = 0;
        for _ in 0..count {
            len = len * 256 + usize::from(reader.read_one()?);
        }
        Length::shortest(count, len)
    }

    /// Writes a length, and returns how many bytes were written. After an error of the writer only a beginning was
    /// written, and at least one byte is missing.
    pub fn serialize<W: WriteExt>(len: usize, writer: &mut W) -> Result<usize>
        ensures count { IfOk result (λ n. n ≡ length (length_octets len)) }
        ensures appends { OnOk result (Appends (W.written writer.old) (W.written writer.new)
            (length_octets len)) }
        ensures beginning { OnErr result (AppendsTooFew (W.written writer.old)
            (W.written writer.new)
            (length_octets len)) }
        ensures fault { IfErr result (λ e. WriterFails W.WriteExt.own writer.old e writer.new) }
        ensures no_fault { OnOk result (W.faults writer.new ≡ W.faults writer.old) }
        ensures continues { W.later writer.old writer.new }
    {
        Ok(writer.write_exact(&Length::bytes(len))?)
    }

    /// The bytes of a length: 1 to 9.
    pub fn bytes(len: usize) -> ArrayVec<u8, 9>
        ensures { result.items ≡ length_octets len }
    {
        let mut bytes = ArrayVec::new();
        if len < 0x80 {
            bytes.push(len as u8);
            return bytes;
        }
        let number = len.to_be_bytes();
        let digits = &number[9 - Length::encoded_len(len)..];
        bytes.push(0x80 | digits.len() as u8);
        let _ = bytes.try_extend_from_slice(digits);
        bytes
    }

    /// The number of bytes of the encoded length: 1 to 9.
    pub fn encoded_len(len: usize) -> usize
        ensures { result ≡ length (length_octets len) }
    {
        if len < 0x80 {
            return 1;
        }
        let zeros = len.leading_zeros() as usize / 8;
        1 + size_of::<usize>() - zeros
    }

    /// How many length bytes follow a first byte of the long form, which is `80` or more (X.690, 8.1.3.5).
    ///
    /// `InvalidData` for `80`, which announces the indefinite form; `UnsupportedValue` past `88`.
    pub fn long_count(first: u8) -> Result<usize>
        requires { 0x80 ≤ first }
        ensures ok { IfOk result (IsLongCount first) }
        ensures err { IfErr result (IsNoLongCount first) }
    {
        match first {
            0x81..=0x88 => Ok(usize::from(first & 0x0F)),
            0x80 => Err(Asn1DerError::InvalidData),
            _ => Err(Asn1DerError::UnsupportedValue),
        }
    }

    /// The number in `count` length bytes, or `InvalidData` if a shorter length encodes it (X.690, 10.1).
    pub fn shortest(count: usize, len: usize) -> Result<usize>
        requires { 1 + count < 2 ^ 64 }
        ensures ok { IfOk result (λ n. (n ≡ len) × (length (length_octets len) ≡ 1 + count)) }
        ensures err { IfErr result (λ e. (e ≡ Asn1DerError.InvalidData)
            × (length (length_octets len) ≢ 1 + count)) }
    {
        if Length::encoded_len(len) == 1 + count {
            Ok(len)
        } else {
            Err(Asn1DerError::InvalidData)
        }
    }
}
