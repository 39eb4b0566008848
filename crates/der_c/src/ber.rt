//! Messages in BER (X.690, 8).
ghost use Rattle.der_c.specs.Ber.{IsDerPut};
ghost use Rattle.der_c.specs.Types.{type_of_number};

use crate::code::{PICKY_DER_NO_MEMORY, PICKY_DER_NO_TABLE, PICKY_DER_UNKNOWN_TYPE};
use crate::json::refused_code;
use crate::types::type_of_number;
use crate::writing::append;
use der_read::{FromBer, message_from_ber};
use std::alloc::Global;

/// Appends the DER of the message of the type with this number that the bytes are in BER to the first `used` bytes of
/// `out`, and adds its size to `used`. picky_der_check accepts it. It is made by a table of the type, as
/// picky_der_to_json has one; the content of a message of CMS by its own type, if that has a table.
///
/// Returns PICKY_DER_OK, or PICKY_DER_NO_ROOM or PICKY_DER_UNSUPPORTED as picky_der_put does. Returns
/// PICKY_DER_NO_VALUE if the bytes aren't BER of a message of the type, and then appends why and where, in words in
/// UTF-8, in place of the DER. Returns PICKY_DER_NO_TABLE if the type has no table, PICKY_DER_NO_MEMORY if an
/// allocation failed and PICKY_DER_UNKNOWN_TYPE if no type has the number, and then nothing changes.
#[unsafe(no_mangle)]
pub extern "C" fn picky_der_from_ber(
    alloc: Global,
    number: u32,
    bytes: &[u8],
    out: &mut [u8],
    used: &mut usize,
) -> u32
    ensures { IsDerPut (type_of_number number) bytes.now out.old out.new used.old used.new result }
{
    let Some(named) = type_of_number(number) else {
        return PICKY_DER_UNKNOWN_TYPE;
    };
    let Ok(written) = message_from_ber(alloc, named, bytes) else {
        return PICKY_DER_NO_MEMORY;
    };
    match written {
        FromBer::Message(der) => append(out, used, &der),
        FromBer::NoSchema => PICKY_DER_NO_TABLE,
        FromBer::Refused(reason) => refused_code(append(out, used, reason.as_bytes())),
    }
}
