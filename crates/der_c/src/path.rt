//! Where in bytes a check refuses them.
ghost use Rattle.der_c.specs.Paths.{IsPathPut};
ghost use Rattle.der_c.specs.Types.{type_of_number};

use crate::code::{PICKY_DER_NO_MEMORY, PICKY_DER_UNKNOWN_TYPE};
use crate::types::type_of_number;
use crate::writing::append;
use der_read::path_of;
use std::alloc::Global;

/// Appends to the first `used` bytes of `out` the path of the element for which picky_der_check refuses the bytes, and
/// adds its length to `used`. It is UTF-8 without a zero at its end. It names the members of the types for which there
/// are tables, as `tbsCertificate.extensions[3].extnID`, and is by numbers for others, as `0.2.1`. It is empty for the
/// outermost element, and for bytes that are accepted.
///
/// Returns PICKY_DER_OK, or PICKY_DER_NO_ROOM or PICKY_DER_UNSUPPORTED as picky_der_put does. Returns
/// PICKY_DER_NO_MEMORY if an allocation failed and PICKY_DER_UNKNOWN_TYPE if no type has the number, and then nothing
/// changes.
#[unsafe(no_mangle)]
pub extern "C" fn picky_der_path(
    alloc: Global,
    number: u32,
    bytes: &[u8],
    out: &mut [u8],
    used: &mut usize,
) -> u32
    ensures { IsPathPut (type_of_number number) bytes.now out.old out.new used.old used.new result }
{
    let Some(named) = type_of_number(number) else {
        return PICKY_DER_UNKNOWN_TYPE;
    };
    match path_of(alloc, named, bytes) {
        Ok(path) => append(out, used, path.as_bytes()),
        Err(_) => PICKY_DER_NO_MEMORY,
    }
}
