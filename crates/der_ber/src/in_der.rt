//! Elements in DER.
ghost use Rattle.std.specs.Prelude.{◌≢◌, IfOk, IfErr};
ghost use Rattle.der_ber.specs.InDer.{IsInDer, IsRefusedWith, AreNoneWith};

use crate::front::Until;
use crate::parts::written;
use crate::reading::read_elements;
use crate::strings::Strings;
use crate::{BerError, MAX_DEPTH};
use std::alloc::Global;

// The same elements with the lengths of DER, and with such strings.
pub(crate) fn in_der(alloc: Global, bytes: &[u8], strings: Strings) -> Result<Vec<u8>, BerError>
    ensures ok { IfOk result (λ der. IsInDer strings bytes.now der.items) }
    ensures err { IfErr result (IsRefusedWith strings bytes.now) }
    ensures none { IfErr result (λ e. e ≢ BerError.OutOfMemory → AreNoneWith strings bytes.now) }
{
    let mut parts = Vec::new(alloc);
    let (size, _) = read_elements(bytes, Until::End, 0, MAX_DEPTH, strings, &mut parts)?;
    Ok(written(alloc, &parts, size)?)
}
