//! The contents of elements.
ghost use Rattle.std.specs.Prelude.{◌≡◌, ◌%◌, ◌^◌, ◌==◌, ◌<◌, MatchOption, if◌then◌else◌, Some, None};
ghost use Rattle.der_show.specs.Contents.{IsContent, BreaksContent, unless, boolean_rule, integer_rule};
ghost use Rattle.der_show.specs.Contents.{bit_string_rule, null_rule, primitive_rule, string_rule};

use crate::strings::{is_bmp, is_universal};
use crate::{Rule, are_in_set_order};
use der_types::{is_generalized_time, is_subidentifiers, is_utc_time};
use picky_der_core::asn1::Tag;
use picky_der_core::integer::is_integer;

/// Returns the rule that the content of an element with this tag breaks, or `None`.
///
/// It checks the contents of the universal types that DER restricts, except REAL and TIME. For strings it checks
/// whether the bytes are characters, but not which characters the type has.
pub fn content_rule(tag: Tag, content: &[u8]) -> Option<Rule>
    ensures { MatchOption result (IsContent tag content.now) (BreaksContent tag content.now) }
{
    if tag == Tag::SET {
        return unless(are_in_set_order(content), Rule::SetOrder);
    }
    primitive_rule(tag, content)
}

// The rule that the content of a primitive element breaks, or `None`.
fn primitive_rule(tag: Tag, content: &[u8]) -> Option<Rule>
    ensures { result ≡ primitive_rule tag content.now }
{
    match tag.inner() {
        0x01 => boolean_rule(content),
        0x02 | 0x0A => integer_rule(content),
        0x03 => bit_string_rule(content),
        0x05 => unless(content.is_empty(), Rule::NullContent),
        0x06 => unless(is_subidentifiers(content), Rule::ObjectIdentifier),
        0x0D => unless(is_subidentifiers(content), Rule::RelativeOid),
        0x17 => unless(is_utc_time(content), Rule::UtcTime),
        0x18 => unless(is_generalized_time(content), Rule::GeneralizedTime),
        _ => string_rule(tag, content),
    }
}

// The rule that a text in a string type with wide characters breaks, or `None`.
fn string_rule(tag: Tag, content: &[u8]) -> Option<Rule>
    ensures { result ≡ string_rule tag content.now }
{
    match tag.inner() {
        0x0C => unless(str::from_utf8(content).is_ok(), Rule::Utf8),
        0x1C => unless(is_universal(content), Rule::UniversalString),
        0x1E => unless(is_bmp(content), Rule::BmpString),
        _ => None,
    }
}

// The rule, or `None` if it is kept.
fn unless(is_kept: bool, rule: Rule) -> Option<Rule>
    ensures { result ≡ unless is_kept rule }
{
    if is_kept { None } else { Some(rule) }
}

// The rule that a BOOLEAN breaks, or `None`.
fn boolean_rule(content: &[u8]) -> Option<Rule>
    ensures { result ≡ boolean_rule content.now }
{
    match content {
        [0x00 | 0xFF] => None,
        [_] => Some(Rule::BooleanValue),
        _ => Some(Rule::BooleanSize),
    }
}

// The rule that a number breaks, or `None`.
fn integer_rule(content: &[u8]) -> Option<Rule>
    ensures { result ≡ integer_rule content.now }
{
    if content.is_empty() {
        return Some(Rule::EmptyInteger);
    }
    unless(is_integer(content), Rule::PaddedInteger)
}

// The rule that a BIT STRING breaks, or `None`.
fn bit_string_rule(content: &[u8]) -> Option<Rule>
    ensures { result ≡ bit_string_rule content.now }
{
    match content {
        [0x00] => None,
        [unused, .., last] if *unused < 8 => unless(*last % (1 << *unused) == 0, Rule::UnusedBits),
        _ => Some(Rule::UnusedCount),
    }
}
