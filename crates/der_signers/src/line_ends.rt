//! Line ends of a content that is text.
ghost use Rattle.std.specs.Prelude.{◌≡◌, ◌++◌, IfOk, OnOk};
ghost use Rattle.der_signers.specs.LineEnds.{canonical, with_cr};

use std::alloc::{AllocError, Global};

/// How the lines of a content end when its digest is computed.
#[derive(Debug, Clone, Copy, PartialEq, Eq)]
pub enum LineEnds {
    /// As they do.
    AsTheyAre,
    /// With CR LF, as those of a signed mail (RFC 8551, 3.1.1).
    CrLf,
}

/// Returns these bytes with CR LF at the end of each line: each LF that no CR precedes gets one. The only error is a
/// failed allocation.
pub fn with_cr_lf(alloc: Global, bytes: &[u8]) -> Result<Vec<u8>, AllocError>
    ensures { IfOk result (λ text. text.items ≡ canonical bytes.now) }
{
    let mut text = Vec::new(alloc);
    let mut is_after_cr = false;
    for byte in bytes {
        push_with_cr(&mut text, *byte, is_after_cr)?;
        is_after_cr = *byte == b'\r';
    }
    Ok(text)
}

// Appends a byte, with CR before it if it is an LF that doesn't come after one.
fn push_with_cr(text: &mut Vec<u8>, byte: u8, is_after_cr: bool) -> Result<(), AllocError>
    ensures { OnOk result (text.new.items ≡ text.old.items ++ with_cr is_after_cr byte) }
{
    if byte == b'\n' && !is_after_cr {
        text.push(b'\r')?;
    }
    text.push(byte)?;
    Ok(())
}
