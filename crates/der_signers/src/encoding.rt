//! Encodings of values that can be written.
ghost use Rattle.std.specs.Prelude.{◌≡◌, IfOk, IfErr};
ghost use Rattle.picky_der_core.specs.Encoding.{der};
ghost use Rattle.picky_der_core.specs.Readable.{IsWritable};

use picky_asn1_der::{Asn1DerError, Result, Serialize, to_vec};
use std::alloc::Global;

// The encoding of a value that can be written. The only error is `OutOfMemory`.
pub fn encoding_of<T: Serialize>(alloc: Global, value: &T) -> Result<Vec<u8>>
    requires { IsWritable (T.meaning value.now) }
    ensures ok { IfOk result (λ bytes. bytes.items ≡ der (T.meaning value.now)) }
    ensures err { IfErr result (λ e. e ≡ Asn1DerError.OutOfMemory) }
{
    to_vec(alloc, value)
}
