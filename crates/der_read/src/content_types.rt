//! The types of the contents of CMS that have a table.
ghost use Rattle.der_read.specs.BerMessages.{AreContents};

use der_ber_types::ContentType;
use der_schemas::{auth_enveloped_data, authenticated_data, cms, enveloped_data, signed_data};

// Signed, enveloped, digested, encrypted, authenticated and authenticated-enveloped data, by the contents of their
// identifiers (RFC 5652, 5.1, 6.1, 7, 8 and 9.1; RFC 5083, 2.1).
pub(crate) fn content_types() -> [ContentType; 6]
    ensures { AreContents result }
{
    [
        ContentType {
            identifier: &[0x2A, 0x86, 0x48, 0x86, 0xF7, 0x0D, 0x01, 0x07, 0x02],
            schema: signed_data::signed_data(),
        },
        ContentType {
            identifier: &[0x2A, 0x86, 0x48, 0x86, 0xF7, 0x0D, 0x01, 0x07, 0x03],
            schema: enveloped_data::enveloped_data(),
        },
        ContentType {
            identifier: &[0x2A, 0x86, 0x48, 0x86, 0xF7, 0x0D, 0x01, 0x07, 0x05],
            schema: cms::digested_data(),
        },
        ContentType {
            identifier: &[0x2A, 0x86, 0x48, 0x86, 0xF7, 0x0D, 0x01, 0x07, 0x06],
            schema: cms::encrypted_data(),
        },
        ContentType {
            identifier: &[
                0x2A, 0x86, 0x48, 0x86, 0xF7, 0x0D, 0x01, 0x09, 0x10, 0x01, 0x02,
            ],
            schema: authenticated_data::authenticated_data(),
        },
        ContentType {
            identifier: &[
                0x2A, 0x86, 0x48, 0x86, 0xF7, 0x0D, 0x01, 0x09, 0x10, 0x01, 0x17,
            ],
            schema: auth_enveloped_data::auth_enveloped_data(),
        },
    ]
}
