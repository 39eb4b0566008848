//! What the relation of BER and DER says: each law is the contract of a function that does nothing.
ghost use Rattle.der_ber_types.specs.Laws.{OneDer, DerIsOwnBer, RulesAreKept};

/// Bytes are BER of one DER only, by a type.
pub fn one_der()
    ensures { OneDer }
{}

/// The DER of each value of a type is its own BER. The table's tags are those that X.680 asks for (25.6, 27.3, 29.3),
/// and elements of any type have elements in them at every depth, if they are constructed.
pub fn own_ber()
    ensures { DerIsOwnBer }
{}

/// A table is one of which `own_ber` speaks, if it keeps the rules of tags and defaults by the test of `der_schema`.
pub fn sound_table()
    ensures { RulesAreKept }
{}
