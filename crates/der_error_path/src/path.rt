//! The path of an error.
ghost use Rattle.std.specs.Prelude.{◌≡◌, ◌-◌, ◌⊎◌, IfOk};
ghost use Rattle.der_path.specs.Paths.{IsPath};
ghost use Rattle.der_error_path.specs.Awaited.{Awaited};
ghost use Rattle.der_error_path.specs.Steps.{AreSteps};

use crate::steps::{Step, steps_of};
use der_path::path_at;
use der_schema::Schema;
use std::alloc::{AllocError, Global};

/// What is wrong with an element.
#[derive(Debug, Clone, Copy, PartialEq, Eq)]
pub enum Mistake {
    /// The type has no element there: one too many, or bytes after the value.
    Extra,
    /// Its tag isn't one of its type (X.690, 8.1.2).
    OtherTag,
    /// It isn't in DER whatever its type: it is cut short, or its length isn't the shortest (X.690, 8.1.3, 10.1).
    NoElement,
    /// This member is missing at its end (X.680, 25).
    Missing(&'static str),
    /// It has the value with which it would be absent (X.690, 11.5).
    Default,
    /// It is less than the one before it in a SET OF (X.690, 11.6).
    Order,
    /// Its content isn't one of its type in DER.
    Content,
}

/// Where an error is.
#[derive(Debug, Drop)]
pub struct ErrorPath {
    /// The index of the byte that the error names.
    pub place: usize,
    /// The path of this byte by numbers, as of `path_at`.
    pub numbers: Vec<usize>,
    /// The elements up to the one with the mistake, which is the last. They are the first ones of the path.
    pub steps: Vec<Step>,
    /// What is wrong with it.
    pub mistake: Mistake,
}

/// Returns where the error is with which a type refused these bytes after so many of them, as `from_der` says.
///
/// The error names the byte before this position, the last one that was consumed, if it is in a header that was
/// refused, or ends an element whose content is refused or lacks a member. Else it names the byte at this position if
/// that is in an element that the type doesn't have there, or that begins with another tag. So of two mistakes it is
/// the first one. What is wrong in a string or a bit string, or by a constraint, is seen only if nothing is wrong at
/// the position.
///
/// `AllocError` if an allocation fails.
pub fn path_of_error(
    alloc: Global,
    schema: Schema,
    bytes: &[u8],
    position: usize,
) -> Result<ErrorPath, AllocError>
    ensures place { IfOk result (λ it. (it.place ≡ position) ⊎ (it.place ≡ position - 1)) }
    ensures numbers { IfOk result (λ it. IsPath bytes.now it.place it.numbers.items) }
    ensures steps { IfOk result (λ it. AreSteps schema.nodes.now (Awaited.value schema.root) bytes.now it.numbers.items
        it.steps.items it.mistake) }
{
    let (before, is_refused) = path_of_byte(
        alloc,
        schema,
        bytes,
        position.saturating_sub(1),
        position,
    )?;
    if is_refused {
        return Ok(before);
    }
    let (ahead, _) = path_of_byte(alloc, schema, bytes, position, position)?;
    match ahead.mistake {
        Mistake::Extra | Mistake::OtherTag => Ok(ahead),
        _ => Ok(before),
    }
}

// The path of the byte at this place, for an error at this position, and whether an element that was consumed is known
// to be refused there.
fn path_of_byte(
    alloc: Global,
    schema: Schema,
    bytes: &[u8],
    place: usize,
    position: usize,
) -> Result<(ErrorPath, bool), AllocError>
    ensures place { IfOk result (λ pair. pair.0.place ≡ place) }
    ensures numbers { IfOk result (λ pair. IsPath bytes.now place pair.0.numbers.items) }
    ensures steps { IfOk result (λ pair. AreSteps schema.nodes.now (Awaited.value schema.root) bytes.now
        pair.0.numbers.items pair.0.steps.items pair.0.mistake) }
{
    let numbers = path_at(alloc, bytes, place)?;
    let (steps, found) = steps_of(alloc, schema, bytes, &numbers, position)?;
    let is_refused = is_refusal(&steps, found);
    let path = ErrorPath {
        place,
        numbers,
        steps,
        mistake: found.unwrap_or(Mistake::Content),
    };
    Ok((path, is_refused))
}

// Whether this mistake of the last step is why an element was refused that was consumed. A tag is refused before it is
// consumed, and elements in one of any type aren't read.
fn is_refusal(steps: &[Step], found: Option<Mistake>) -> bool {
    match found {
        None | Some(Mistake::Extra | Mistake::OtherTag) => false,
        Some(Mistake::NoElement) => matches!(steps.last(), Some(Step { node: Some(_), .. })),
        Some(_) => true,
    }
}
