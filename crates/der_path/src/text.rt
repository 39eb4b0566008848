//! Paths as text.
ghost use Rattle.std.specs.Prelude.{◌≡◌, IfOk, string_bytes};
ghost use Rattle.der_path.specs.Texts.{with_points};

use std::alloc::{AllocError, Global};

/// Returns the numbers of a path in decimal, with a point between any two of them.
///
/// `AllocError` if an allocation fails.
pub fn text_of(alloc: Global, path: &[usize]) -> Result<String, AllocError>
    ensures { IfOk result (λ text. string_bytes text ≡ with_points path.now) }
{
    let Some((first, others)) = path.split_first() else {
        return Ok(String::new(alloc));
    };
    let mut text = format!(in alloc; "{first}")?;
    for index in others {
        text.push_str(&format!(in alloc; ".{index}")?)?;
    }
    Ok(text)
}
