//! A struct with an option of a list.
ghost use Rattle.std.specs.Prelude.{None};

mod derived;

use picky_asn1_der::Inhabited;

/// A gust of wind, as a SEQUENCE of an INTEGER and a SEQUENCE of texts.
// asn1: faithful
#[derive(Debug, Clone, Drop, PartialEq, Eq)]
pub struct Gust {
    /// Whole meters in a second.
    pub speed: u8,
    /// Notes about it, if there are any.
    pub notes: Option<Vec<String>>,
}

impl Inhabited for Gust {
    ghost example = { (record { speed = 0; notes = None }, (tt, (tt, tt))) };
}
