//! What the relation of elements and their bytes says: each law is the contract of a function that does nothing.
ghost use Rattle.der_ber.specs.Laws.{OneMeaning, DerIsBer, StaysShort, OneWhole, StaysWhole};

/// Bytes are those of one list of elements only.
#[tactic(auto, using(crate::proofs::Splits::one_meaning))]
pub fn one_meaning()
    ensures { OneMeaning }
{}

/// The lengths of DER are lengths of BER.
#[tactic(auto, using(crate::proofs::LawLemmas::der_is_ber))]
pub fn der_is_ber()
    ensures { DerIsBer }
{}

/// What `with_short_lengths` returns is what it returns of itself.
pub fn stays_short()
    ensures { StaysShort }
{}

/// `with_whole_strings` returns one result of the same bytes only.
pub fn one_whole()
    ensures { OneWhole }
{}

/// What `with_whole_strings` returns is what it returns of itself.
pub fn stays_whole()
    ensures { StaysWhole }
{}
