//! The order of the members of a set (X.690, 11.6).
ghost use Rattle.std.specs.Prelude.{◌≡◌, ◌≤◌, ◌+◌, ◌++◌, length, map, take, drop, vec_len, IfOk, OnOk, OnErr};
ghost use Rattle.std.specs.List.{concat};
ghost use Rattle.picky_der_core.specs.Order.{in_ascending_order};
ghost use Rattle.picky_der_ser.specs.Seams.{cut_at_seams, AreSeams, last_seam, next_seams};

use crate::Header;
use std::alloc::{AllocError, Global};

// Keeps where the next member of a set begins, after `held` bytes of other members. If an allocation fails nothing
// changes.
pub(crate) fn begin_member(
    seams: &mut Vec<usize>,
    header: Header,
    held: usize,
) -> Result<(), AllocError>
    ensures ok { OnOk result (seams.new.items ≡ next_seams header seams.old.items held) }
    ensures err { OnErr result (seams.new.items ≡ seams.old.items) }
{
    if header.is_set() && held > 0 {
        seams.push(held)?;
    }
    Ok(())
}

// The content, cut at the seams.
fn cut<'a>(content: &'a [u8], seams: &[usize], alloc: Global) -> Result<Vec<&'a [u8]>, AllocError>
    requires ascending { AreSeams 0 seams.now }
    requires within { last_seam 0 seams.now ≤ length content.now }
    ensures { IfOk result (λ members. map (λ m. m.now) members.items
        ≡ cut_at_seams seams.now content.now) }
{
    let mut members = Vec::new(alloc);
    let mut start = 0;
    for seam in seams {
        members.push(&content[start..*seam])?;
        start = *seam;
    }
    members.push(&content[start..])?;
    Ok(members)
}

// The members of the content in ascending order, one after the other.
fn sorted_content(content: &[u8], seams: &[usize], alloc: Global) -> Result<Vec<u8>, AllocError>
    requires ascending { AreSeams 0 seams.now }
    requires within { last_seam 0 seams.now ≤ length content.now }
    ensures { IfOk result (λ all. all.items
        ≡ concat (in_ascending_order (cut_at_seams seams.now content.now))) }
{
    let mut members = cut(content, seams, alloc)?;
    members.sort()?;
    members.concat(alloc)
}

// Sorts the members from `start` on in ascending order. Most lists have no seam and don't come here, so this function
// isn't inlined.
#[inline(never)]
pub(crate) fn arrange(
    out: &mut Vec<u8>,
    start: usize,
    seams: &[usize],
    alloc: Global,
) -> Result<(), AllocError>
    requires ascending { AreSeams 0 seams.now }
    requires within { start + last_seam 0 seams.now ≤ vec_len out.old }
    ensures ok { OnOk result (out.new.items ≡ take start out.old.items ++ concat
        (in_ascending_order (cut_at_seams seams.now (drop start out.old.items)))) }
    ensures len { vec_len out.new ≡ vec_len out.old }
{
    let members = sorted_content(&out[start..], seams, alloc)?;
    out[start..].copy_from_slice(&members);
    Ok(())
}
