//! Arcs in decimal, separated by points.
ghost use Rattle.std.specs.Prelude.{◌≡◌, ◌⊎◌, map, IfOk, IfErr};
ghost use Rattle.std.specs.Char.{is_ascii_digit};
ghost use Rattle.std.specs.List.{list_all};
ghost use Rattle.std.specs.Fmt.{decimal};
ghost use Rattle.der_types.specs.Dotted.{dotted, is_decimal, IsNoArc, part_error, parts_of, RefusesText};

use crate::OidError;
use std::alloc::Global;

// Whether the bytes are decimal digits.
fn are_digits(bytes: &[u8]) -> bool
    ensures { result ≡ list_all is_ascii_digit bytes.now }
{
    bytes.iter().all(|byte| byte.is_ascii_digit())
}

// Whether they are a decimal number: at least one digit, and no leading 0 unless it is the only digit.
fn is_decimal(bytes: &[u8]) -> bool
    ensures { result ≡ is_decimal bytes.now }
{
    match bytes {
        [] => false,
        [digit] => digit.is_ascii_digit(),
        [first, ..] => *first != b'0' && are_digits(bytes),
    }
}

// Returns the arc that the text is in decimal.
fn arc_of_text(text: &str) -> Result<u64, OidError>
    ensures ok { IfOk result (λ arc. text.now ≡ decimal arc) }
    ensures none { IfErr result (λ e. IsNoArc text.now) }
    ensures err { IfErr result (λ e. e ≡ part_error text.now) }
{
    if !is_decimal(text.as_bytes()) {
        return Err(OidError::NotANumber);
    }
    match text.parse::<u64>() {
        Ok(arc) => Ok(arc),
        Err(_) => Err(OidError::ArcTooLarge),
    }
}

// Returns the arcs that the text is in decimal, separated by points: at least one arc.
pub(crate) fn arcs_of_text(alloc: Global, text: &str) -> Result<Vec<u64>, OidError>
    ensures ok { IfOk result (λ arcs. text.now ≡ dotted arcs.items) }
    ensures parts { IfOk result (λ arcs. parts_of text.now ≡ map decimal arcs.items) }
    ensures err { IfErr result (λ e. (e ≡ OidError.OutOfMemory) ⊎ RefusesText text.now e) }
{
    let mut arcs = Vec::new(alloc);
    for part in text.split('.') {
        arcs.push(arc_of_text(part)?)?;
    }
    Ok(arcs)
}
