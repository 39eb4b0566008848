//! Strings in one part.
ghost use Rattle.std.specs.Prelude.{◌≢◌, IfOk, IfErr};
ghost use Rattle.der_ber.specs.InDer.{IsInDer, IsRefusedWith, AreNoneWith};

use crate::BerError;
use crate::in_der::in_der;
use crate::strings::Strings;
use std::alloc::Global;

/// Returns the same elements with the lengths of DER, as `with_short_lengths`, and with each string in one part (X.690,
/// 10.2). A string in parts is a constructed element with the universal tag of a string, a time or an
/// ObjectDescriptor. It becomes the primitive element whose content is that of its parts, one after another, at every
/// depth (8.6.4, 8.7.3, 8.23.3).
///
/// A string under an implicit tag stays in parts, since only its type says that it is a string. The contents of
/// primitive elements stay, also unused bits that aren't 0.
///
/// The errors are those of `with_short_lengths`, and `Broken` with `WrongPart` or `UnusedBits` if a string has other
/// elements than its parts.
///
/// The time and the memory are linear in the number of bytes.
pub fn with_whole_strings(alloc: Global, bytes: &[u8]) -> Result<Vec<u8>, BerError>
    ensures ok { IfOk result (λ der. IsInDer Strings.Whole bytes.now der.items) }
    ensures err { IfErr result (IsRefusedWith Strings.Whole bytes.now) }
    ensures none { IfErr result (λ e. e ≢ BerError.OutOfMemory → AreNoneWith Strings.Whole bytes.now) }
{
    in_der(alloc, bytes, Strings::Whole)
}
