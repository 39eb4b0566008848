//! Elements that are kept as they are.
ghost use Rattle.std.specs.Prelude.{◌≡◌, codes, IfOk, IfErr};
ghost use Rattle.std.specs.Cmp.Lexicographic.{slice_cmp};
ghost use Rattle.std.specs.Ordering.{nat_cmp};
ghost use Rattle.std.specs.Hash as fed;
ghost use Rattle.picky_der_core.specs.Equality.{IsEqualityOf, IsThatOf, IsKept};
ghost use Rattle.picky_der_core.specs.Tree.{Tree};
ghost use Rattle.picky_der_core.specs.Shape.{Shape};
ghost use Rattle.picky_der_ser.specs.Calls.{WritesPlain};
ghost use Rattle.picky_der_de.specs.Reading.{Reads, Refuses};
ghost use Rattle.picky_der_de.specs.Elements.{RefusesRaw};
ghost use Rattle.picky_der_de.specs.Facts.{raw_facts};

use picky_der_core::asn1::Tag;
use picky_der_core::misc::{ReadExt, WriteExt};
use picky_der_core::{Asn1DerError, Result};
use picky_der_de::{Begins, Deserialize, Deserializer};
use picky_der_ser::{Serialize, Serializer};
use std::fmt;
use std::hash::Hash;

/// One element, whatever its tag, by its bytes with the header (X.690, 8.1.1). The bytes are written as they are. If
/// they aren't exactly one element, they can't be read back as this type.
#[derive(Clone, Drop, PartialEq, Eq, PartialOrd, Ord, Hash)]
pub struct Asn1RawDer(pub Vec<u8>);

/// Raw elements are equal exactly if their bytes are the same. They are ordered like their bytes, at the first index
/// where these differ, and hashed like a list of their bytes. A copy has the same bytes.
pub fn comparisons()
    ensures equal { IsEqualityOf ⟦<Asn1RawDer as PartialEq>⟧.eq (λ raw. raw.0.items) }
    ensures order { IsThatOf ⟦<Asn1RawDer as PartialOrd>⟧.partial_cmp (λ raw. raw.0.items)
        (λ x y. Some (slice_cmp nat_cmp x y)) }
    ensures hash { (raw : _) → ⟦<Asn1RawDer as Hash>⟧.hash_input raw
        ≡ fed.slice fed.u8 raw.0.items }
    ensures copy { IsKept ⟦<Asn1RawDer as Clone>⟧.is_clone (λ raw. raw.0.items) }
{}

/// The name of the type is `Asn1RawDer`.
pub fn name()
    ensures { Asn1RawDer.NAME.now ≡ codes "Asn1RawDer" }
{}

impl Asn1RawDer {
    /// The name of the type.
    pub const NAME: &'static str = "Asn1RawDer";

    /// A copy, on the same allocator. `OutOfMemory` if an allocation fails.
    pub fn clone(&self) -> Result<Asn1RawDer>
        ensures same { IfOk result (λ copy. copy.0.items ≡ self.now.0.items) }
        ensures memory { IfErr result (λ e. e ≡ Asn1DerError.OutOfMemory) }
    {
        Ok(Asn1RawDer(self.0.clone()?))
    }
}

impl From<Vec<u8>> for Asn1RawDer {
    ghost from_gives = { λ bytes raw. raw.0 ≡ bytes };

    fn from(bytes: Vec<u8>) -> Asn1RawDer {
        Asn1RawDer(bytes)
    }
}

/// The bytes in hexadecimal: `RawDer(0x020107)`.
impl fmt::Debug for Asn1RawDer {
    fn fmt<W: fmt::Write>(&self, f: &mut fmt::Formatter<W>) -> fmt::Result {
        f.write_str("RawDer(0x")?;
        for byte in &self.0 {
            write!(f, "{byte:02X}")?;
        }
        f.write_str(")")
    }
}

impl Serialize for Asn1RawDer {
    ghost meaning = { λ raw. Tree.raw raw.0.items };

    fn serialize<W: WriteExt>(&self, ser: &mut Serializer<W>) -> Result<usize>
        ensures plain { WritesPlain W.WriteExt.own
            (Tree.raw self.now.0.items) ser.old result ser.new }
    {
        ser.serialize_raw(&self.0)
    }
}

impl Deserialize for Asn1RawDer {
    ghost shape = { Shape.raw };

    ghost facts = { raw_facts (λ it. it.0.items) };

    ghost proved = { Prim.assumption };

    fn deserialize<R: ReadExt>(de: &mut Deserializer<R>) -> Result<Asn1RawDer>
        ensures ok { IfOk result (λ value. Reads Shape.raw de.old de.new (Tree.raw value.0.items)) }
        ensures err { IfErr result (Refuses ⟦<Asn1RawDer as Serialize>⟧.meaning Shape.raw
            de.old de.new) }
        ensures refused { IfErr result (RefusesRaw de.old de.new) }
    {
        Ok(Asn1RawDer(de.deserialize_raw()?))
    }
}

impl Begins for Asn1RawDer {
    fn begins_with(tag: Tag) -> bool {
        tag.number() <= Tag::MAX_NUMBER
    }
}
