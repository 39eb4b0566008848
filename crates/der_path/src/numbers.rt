//! Paths by numbers.
ghost use Rattle.std.specs.Prelude.{IfOk};
ghost use Rattle.der_path.specs.Paths.{IsPath};

use crate::{content_at, member_at};
use std::alloc::{AllocError, Global};

/// Returns the path of the byte at this place: the index of each element that has it, the outermost first, among those
/// in the same content.
///
/// The path goes on in the content of a constructed element, and ends in its header, in a primitive element, or in
/// bytes that can't be read as an element. It is empty if there are no more bytes than the place.
///
/// `AllocError` if an allocation fails.
pub fn path_at(alloc: Global, bytes: &[u8], place: usize) -> Result<Vec<usize>, AllocError>
    ensures { IfOk result (λ path. IsPath bytes.now place path.items) }
{
    let mut path = Vec::new(alloc);
    let mut around = bytes;
    let mut inner = place;
    while let Some(member) = member_at(around, inner) {
        path.push(member.index)?;
        let Some((content, within)) = content_at(member.bytes, inner - member.offset) else {
            return Ok(path);
        };
        around = content;
        inner = within;
    }
    Ok(path)
}
