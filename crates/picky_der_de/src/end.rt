//! What kinds of ends there are before which a value has to be complete.
ghost use Rattle.std.specs.Prelude.{◌≡◌};
ghost use Rattle.picky_der_de.specs.Steps.{error_at_end};

use picky_der_core::Asn1DerError;

// What the innermost end is. Past a hard end no byte can come. Past the others more input may bring some.
#[derive(Clone, Copy)]
pub(crate) enum End {
    // The limit on the bytes that may be consumed.
    Limit,

    // The end of a sequence or set.
    Soft,

    // The end of a container or tag, except that of an implicit tag around a sequence or set, which is soft.
    Hard,
}

impl End {
    // The error for a byte that is missing there, and for a length that reaches past it.
    pub(crate) fn missing(self) -> Asn1DerError
        ensures { result ≡ error_at_end self }
    {
        match self {
            End::Limit | End::Soft => Asn1DerError::TruncatedData,
            End::Hard => Asn1DerError::InvalidData,
        }
    }
}
