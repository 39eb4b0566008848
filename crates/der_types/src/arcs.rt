//! The arcs of an object identifier, as an iterator over its content.
ghost use Rattle.std.specs.Prelude.{◌≡◌, ◌≤◌, ℕ, List, ◌∷◌, map, Some};
ghost use Rattle.std.specs.Iterator.{YieldsFirst, item_count};
ghost use Rattle.der_types.specs.ObjectIdentifier.{arcs_of_numbers};
ghost use Rattle.der_types.specs.Dotted.{dotted_or_marked, fitted};

use crate::OidError;
use crate::subidentifiers::split_number;
use std::fmt;

// Which arc comes next.
#[derive(Debug, Clone, Copy)]
enum Next {
    // The first two arcs, which share the first number (X.690, 8.19.4).
    FirstTwo,
    // The second arc, as a number of 128 bits: it may not fit `u64`.
    Second(u128),
    // The arc that is the next number.
    Another,
}

/// The arcs of an object identifier or of a relative one, in order. An arc above `u64::MAX` is returned as the error
/// `ArcTooLarge`; the arcs after it still follow.
///
/// They print with points between them. An arc above `u64::MAX` prints as `(above 64 bits)`.
#[derive(Debug, Clone, Copy)]
pub struct Arcs<'a> {
    next: Next,
    bytes: &'a [u8],
}

// The arc, or `ArcTooLarge` if it is above `u64::MAX`.
fn fitted(arc: u128) -> Result<u64, OidError>
    ensures { result ≡ fitted arc }
{
    match u64::try_from(arc) {
        Ok(arc) => Ok(arc),
        Err(_) => Err(OidError::ArcTooLarge),
    }
}

// The first two arcs, from the first number of the content (X.690, 8.19.4).
fn first_two(number: u128) -> (u64, u128)
    ensures arcs { (others : List ℕ)
        → arcs_of_numbers (number ∷ others) ≡ result.0 ∷ result.1 ∷ others }
    ensures first { result.0 ≤ 2 }
{
    if number < 80 {
        ((number / 40) as u64, number % 40)
    } else {
        (2, number - 80)
    }
}

impl<'a> Arcs<'a> {
    ghost use Rattle.der_types.specs.Subidentifiers.{numbers_after};
    ghost use Rattle.der_types.specs.ObjectIdentifier.{arcs_of};
    ghost use Rattle.der_types.specs.Arcs.{arcs_left};

    // The arcs of the object identifier with this content.
    pub(crate) fn of_object_identifier(content: &'a [u8]) -> Arcs<'a>
        ensures { arcs_left result ≡ arcs_of content.now }
    {
        Arcs {
            next: Next::FirstTwo,
            bytes: content,
        }
    }

    // The arcs that are the numbers of this content.
    pub(crate) fn of_numbers(content: &'a [u8]) -> Arcs<'a>
        ensures { arcs_left result ≡ numbers_after 0 content.now }
    {
        Arcs {
            next: Next::Another,
            bytes: content,
        }
    }
}

impl Iterator for Arcs<'_> {
    type Item = Result<u64, OidError>;

    ghost use Rattle.der_types.specs.Arcs.{arcs_left};

    ghost next_gives = { YieldsFirst (λ s. map fitted (arcs_left s)) };

    ghost remaining = { item_count (λ s. map fitted (arcs_left s)) };

    fn next(&mut self) -> Option<Result<u64, OidError>> {
        match self.next {
            Next::FirstTwo => {
                let (number, bytes) = split_number(self.bytes)?;
                let (first, second) = first_two(number);
                self.bytes = bytes;
                self.next = Next::Second(second);
                Some(Ok(first))
            }
            Next::Second(second) => {
                self.next = Next::Another;
                Some(fitted(second))
            }
            Next::Another => {
                let (number, bytes) = split_number(self.bytes)?;
                self.bytes = bytes;
                Some(fitted(number))
            }
        }
    }
}

// An arc for printing.
#[derive(Clone, Copy)]
struct Shown(Result<u64, OidError>);

impl fmt::Display for Shown {
    ghost use Rattle.der_types.specs.Dotted.{arc_text};

    ghost output = { λ s. Some (arc_text s.0) };

    fn fmt<W: fmt::Write>(&self, f: &mut fmt::Formatter<W>) -> fmt::Result {
        match self.0 {
            Ok(arc) => write!(f, "{arc}"),
            Err(_) => write!(f, "(above 64 bits)"),
        }
    }
}

impl fmt::Display for Arcs<'_> {
    ghost use Rattle.der_types.specs.Arcs.{arcs_left};

    ghost output = { λ s. Some (dotted_or_marked (map fitted (arcs_left s))) };

    fn fmt<W: fmt::Write>(&self, f: &mut fmt::Formatter<W>) -> fmt::Result {
        let mut arcs = *self;
        let Some(first) = arcs.next() else {
            return Ok(());
        };
        let first = Shown(first);
        write!(f, "{first}")?;
        for arc in arcs {
            let arc = Shown(arc);
            write!(f, ".{arc}")?;
        }
        Ok(())
    }
}
