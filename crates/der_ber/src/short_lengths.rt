//! The DER form of lengths.
ghost use Rattle.std.specs.Prelude.{◌≢◌, IfOk, IfErr};
ghost use Rattle.der_ber.specs.InDer.{IsRefusedWith};
ghost use Rattle.der_ber.specs.ShortLengths.{IsShortened, AreNoElements};

use crate::BerError;
use crate::in_der::in_der;
use crate::strings::Strings;
use std::alloc::Global;

/// The greatest number of constructed elements that are in one another.
pub const MAX_DEPTH: usize = 128;

/// Returns the same elements with the lengths of DER (X.690, 10.1). The bytes are elements one after another, also
/// none, whatever their types. Each length is of any form of BER (8.1.3), also in the constructed elements at every
/// depth: in more bytes than it takes, or indefinite with an end-of-contents (8.1.5). The contents of primitive
/// elements stay as they are.
///
/// `Broken` if the bytes aren't such elements, or some of them are in more than `MAX_DEPTH` constructed ones. Elements
/// with a tag number past 30 aren't supported. `OutOfMemory` if an allocation fails.
///
/// The time and the memory are linear in the number of bytes.
pub fn with_short_lengths(alloc: Global, bytes: &[u8]) -> Result<Vec<u8>, BerError>
    ensures ok { IfOk result (λ der. IsShortened bytes.now der.items) }
    ensures err { IfErr result (IsRefusedWith Strings.InParts bytes.now) }
    ensures none { IfErr result (λ e. e ≢ BerError.OutOfMemory → AreNoElements bytes.now) }
{
    in_der(alloc, bytes, Strings::InParts)
}
