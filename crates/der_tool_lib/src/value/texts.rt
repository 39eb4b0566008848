//! The texts in answers.
ghost use Rattle.std.specs.Prelude.{◌≡◌, ◌++◌, codes, decimal, IfOk, IfErr, string_bytes};
ghost use Rattle.hex.specs.Hex.{encode_lower};
ghost use Rattle.picky_der_core.specs.Encoding.{der};
ghost use Rattle.picky_der_core.specs.Readable.{IsWritable};
ghost use Rattle.der_tool_lib.specs.Words.{word_of};
ghost use Rattle.der_tool_lib.specs.Value.{is_memory};

use crate::kind_word;
use picky_asn1_der::{Asn1DerError, Result, Serialize, to_vec};
use std::alloc::Global;

pub(super) fn is_out_of_memory(error: Asn1DerError) -> bool
    ensures { result ≡ is_memory error }
{
    matches!(error, Asn1DerError::OutOfMemory)
}

// The encoding of the value, in hexadecimal.
pub(super) fn hexadecimal<T: Serialize>(alloc: Global, value: &T) -> Result<String>
    requires { IsWritable (T.meaning value.now) }
    ensures ok { IfOk result (λ text. string_bytes text ≡ encode_lower
        (der (T.meaning value.now))) }
    ensures err { IfErr result (λ e. e ≡ Asn1DerError.OutOfMemory) }
{
    let encoding = to_vec(alloc, value)?;
    Ok(hex::encode(alloc, encoding)?)
}

pub(super) fn read_text(alloc: Global, taken: usize, digits: &str) -> Result<String>
    ensures ok { IfOk result (λ text. string_bytes text ≡ codes "ok " ++
        (decimal taken ++ (codes " " ++ digits.now))) }
    ensures err { IfErr result (λ e. e ≡ Asn1DerError.OutOfMemory) }
{
    Ok(format!(in alloc; "ok {taken} {digits}")?)
}

pub(super) fn refused_text(alloc: Global, error: Asn1DerError) -> Result<String>
    ensures ok { IfOk result (λ text. string_bytes text ≡ codes "refused " ++ word_of error) }
    ensures err { IfErr result (λ e. e ≡ Asn1DerError.OutOfMemory) }
{
    let word = kind_word(error);
    Ok(format!(in alloc; "refused {word}")?)
}
