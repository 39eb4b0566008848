//! Laws of the definitions that the contracts use.
ghost use Rattle.picky_der_core.specs.Equality.{IsKept};
ghost use Rattle.der_program_base.specs.Laws.{OneSplit, OneFirstWord, OneText, OneTextOrBytes, SpecialsEscape};
ghost use Rattle.der_program_base.specs.Laws.{OneContents, ElementIsMessage};

use crate::{BlockFault, Form, Format, Guess, Status};

/// A copy is the same.
pub fn copies()
    ensures fault { IsKept ⟦<BlockFault as Clone>⟧.is_clone (λ it. it) }
    ensures form { IsKept ⟦<Form as Clone>⟧.is_clone (λ it. it) }
    ensures format { IsKept ⟦<Format as Clone>⟧.is_clone (λ it. it) }
    ensures guess { IsKept ⟦<Guess as Clone>⟧.is_clone (λ it. it) }
    ensures status { IsKept ⟦<Status as Clone>⟧.is_clone (λ it. it) }
{}

/// There is exactly one way to split an input into lines.
pub fn one_split()
    ensures { OneSplit }
{}

/// A line has at most one first word, and one rest after it.
pub fn one_first_word()
    ensures { OneFirstWord }
{}

/// Two texts that are the same after escaping are the same, and so are two lists of bytes that are the same as texts or
/// bytes.
pub fn one_text()
    ensures texts { OneText }
    ensures bytes { OneTextOrBytes }
    ensures specials { SpecialsEscape }
{}

/// The contents of an input are determined: there is one list of blocks, or none.
pub fn one_contents()
    ensures { OneContents }
{}

/// An input that is one element is its only message, unless PEM is asked for: nothing inside it is read as a block.
pub fn element_is_message()
    ensures { ElementIsMessage }
{}
