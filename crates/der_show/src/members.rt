//! The order of the members of a SET.
ghost use Rattle.std.specs.Prelude.{◌≡◌, ◌++◌, IfSome, IfNone, MatchBool};
ghost use Rattle.picky_der_core.specs.Element.{IsElement};
ghost use Rattle.der_types.specs.TagOrder.{tag_place, leading};
ghost use Rattle.der_show.specs.Members.{BeginsNone, may_follow, IsOrdered, IsUnordered, IsSetContent, IsNoSetContent};

use crate::header_of;
use picky_der_core::asn1::Tag;

// An order of members.
#[derive(Clone, Copy)]
enum Order {
    // The order of tags, with no tag twice (X.690, 10.3; X.680, 8.6).
    Tags,
    // The order of encodings, where equal ones may occur (X.690, 11.6).
    Encodings,
}

/// Returns whether the elements at the front of the content of a SET are in the order of their tags or in the order of
/// their encodings.
///
/// The type isn't known, so it can be a SET or a SET OF. If a header can't be read, only the elements before it count.
pub fn are_in_set_order(content: &[u8]) -> bool
    ensures { MatchBool result (IsSetContent content.now) (IsNoSetContent content.now) }
{
    are_in_order(Order::Encodings, content) || are_in_order(Order::Tags, content)
}

// Whether the elements at the front of the bytes are in this order.
fn are_in_order(order: Order, content: &[u8]) -> bool
    ensures { MatchBool result (IsOrdered order content.now) (IsUnordered order content.now) }
{
    let Some((first, after)) = split_member(content) else {
        return true;
    };
    let mut last = first;
    let mut rest = after;
    while let Some((member, others)) = split_member(rest) {
        if !may_follow(order, last, member) {
            return false;
        }
        last = member;
        rest = others;
    }
    true
}

// The element at the front of the bytes, and the bytes after it.
fn split_member(bytes: &[u8]) -> Option<(&[u8], &[u8])>
    ensures element { IfSome result (λ pair. IsElement pair.0.now) }
    ensures all { IfSome result (λ pair. bytes.now ≡ pair.0.now ++ pair.1.now) }
    ensures none { IfNone result (BeginsNone bytes.now) }
{
    match header_of(bytes) {
        Ok(header) => Some(bytes.split_at(header.header_len + header.content_len)),
        Err(_) => None,
    }
}

// Whether the second element may directly follow the first.
fn may_follow(order: Order, first: &[u8], second: &[u8]) -> bool
    ensures { result ≡ may_follow order first.now second.now }
{
    match order {
        Order::Tags => place(first) < place(second),
        Order::Encodings => !second.cmp(first).is_lt(),
    }
}

// The place of an element's tag in the order of tags: by class, then by number.
fn place(element: &[u8]) -> u8
    ensures { result ≡ tag_place (leading element.now) }
{
    match element {
        [first, ..] => {
            let tag = Tag::from(*first);
            tag.inner() / 64 * 32 + tag.number()
        }
        [] => 0,
    }
}
