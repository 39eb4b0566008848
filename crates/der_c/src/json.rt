//! Messages in JSON (X.697).
ghost use Rattle.std.specs.Prelude.{◌≡◌};
ghost use Rattle.der_c.specs.JsonTexts.{refused_code, IsJsonPut, IsJsonWritten, IsMessagePut};
ghost use Rattle.der_c.specs.Types.{type_of_number};

use crate::check::check;
use crate::code::{
    PICKY_DER_NO_MEMORY, PICKY_DER_NO_TABLE, PICKY_DER_NO_VALUE, PICKY_DER_OK,
    PICKY_DER_UNKNOWN_TYPE, PICKY_DER_UNSUPPORTED,
};
use crate::types::type_of_number;
use crate::writing::append;
use der_program_base::json_line;
use der_read::{FromJson, MessageJson, MessageType, json_of, message_from_json};
use std::alloc::Global;

/// Checks the bytes as picky_der_check does, writes to `position` what that writes, appends the JSON of the message
/// (X.697) to the first `used` bytes of `out`, and adds its length to `used`. It is UTF-8 on one line, without a zero
/// at its end. It is made by a table of the type, which all types have but krb.
///
/// Returns PICKY_DER_OK, or PICKY_DER_NO_ROOM as picky_der_put does. Returns what picky_der_check returns if the bytes
/// aren't a message, PICKY_DER_NO_TABLE if the type has no table, and PICKY_DER_UNSUPPORTED if a number in the message
/// has too many digits, or the JSON too many bytes. Then `out` and `used` are as they were.
#[unsafe(no_mangle)]
pub extern "C" fn picky_der_to_json(
    alloc: Global,
    number: u32,
    bytes: &[u8],
    position: &mut usize,
    out: &mut [u8],
    used: &mut usize,
) -> u32
    ensures { IsJsonPut (type_of_number number) bytes.now position.new out.old out.new used.old used.new result }
{
    let Some(named) = type_of_number(number) else {
        *position = 0;
        return PICKY_DER_UNKNOWN_TYPE;
    };
    let code = check(alloc, named, bytes, position);
    if code != PICKY_DER_OK {
        return code;
    }
    put_json(alloc, named, bytes, out, used)
}

// Appends the JSON of bytes that are a message of a type.
fn put_json(
    alloc: Global,
    named: MessageType,
    bytes: &[u8],
    out: &mut [u8],
    used: &mut usize,
) -> u32
    ensures { IsJsonWritten named bytes.now out.old out.new used.old used.new result }
{
    let Ok(json) = json_of(alloc, named, bytes) else {
        return PICKY_DER_NO_MEMORY;
    };
    match json {
        MessageJson::Value(value) => match json_line(alloc, &value) {
            Ok(line) => append(out, used, line.as_bytes()),
            Err(_) => PICKY_DER_NO_MEMORY,
        },
        MessageJson::NoSchema => PICKY_DER_NO_TABLE,
        MessageJson::Refused(_) => PICKY_DER_UNSUPPORTED,
    }
}

/// Appends the DER of the message of the type with this number that has this JSON, as picky_der_to_json writes it, to
/// the first `used` bytes of `out`, and adds its size to `used`. picky_der_check accepts it.
///
/// Returns PICKY_DER_OK, or PICKY_DER_NO_ROOM or PICKY_DER_UNSUPPORTED as picky_der_put does. Returns
/// PICKY_DER_NO_VALUE if the text isn't JSON of a message of the type, and then appends why and where, in words in
/// UTF-8, in place of the DER. Returns PICKY_DER_NO_TABLE if the type has no table, PICKY_DER_NO_MEMORY if an
/// allocation failed and PICKY_DER_UNKNOWN_TYPE if no type has the number, and then nothing changes.
#[unsafe(no_mangle)]
pub extern "C" fn picky_der_from_json(
    alloc: Global,
    number: u32,
    json: &[u8],
    out: &mut [u8],
    used: &mut usize,
) -> u32
    ensures { IsMessagePut (type_of_number number) json.now out.old out.new used.old used.new result }
{
    let Some(named) = type_of_number(number) else {
        return PICKY_DER_UNKNOWN_TYPE;
    };
    let Ok(written) = message_from_json(alloc, named, json) else {
        return PICKY_DER_NO_MEMORY;
    };
    match written {
        FromJson::Message(bytes) => append(out, used, &bytes),
        FromJson::NoSchema => PICKY_DER_NO_TABLE,
        FromJson::Refused(reason) => refused_code(append(out, used, reason.as_bytes())),
    }
}

// The code for a refusal whose words were appended with this code.
pub(crate) fn refused_code(put: u32) -> u32
    ensures { result ≡ refused_code put }
{
    if put == PICKY_DER_OK {
        PICKY_DER_NO_VALUE
    } else {
        put
    }
}
