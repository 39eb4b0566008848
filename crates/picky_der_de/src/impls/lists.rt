//! Lists of values of one type, as they are read.
ghost use Rattle.std.specs.Prelude.{map, IfOk, IfErr};
ghost use Rattle.picky_der_core.specs.Tree.{ListKind, Tree, trees};
ghost use Rattle.picky_der_core.specs.Shape.{Shape};
ghost use Rattle.picky_der_de.specs.Reading.{Reads, Refuses};
ghost use Rattle.picky_der_de.specs.Members.{RefusesUnordered};
ghost use Rattle.picky_der_de.specs.RefusesBy.{RefusesBy};
ghost use Rattle.picky_der_de.specs.Rules.{list_of_rule};
ghost use Rattle.picky_der_de.specs.ContainerFacts.{list_facts};

use crate::{Deserialize, Deserializer};
use picky_der_core::Result;
use picky_der_core::asn1::{Asn1SequenceOf, Asn1SetOf, Tag};
use picky_der_core::misc::ReadExt;
use picky_der_ser::Serialize;

impl<T: Deserialize> Deserialize for Vec<T> {
    ghost shape = { Shape.list_of ListKind.sequence T.shape };

    ghost facts = { list_facts T.facts T.meaning T.eq ListKind.sequence (λ it. it.items) };

    ghost proved = { Prim.assumption };

    fn deserialize<R: ReadExt>(de: &mut Deserializer<R>) -> Result<Vec<T>> {
        de.read_list(Tag::SEQUENCE)
    }
}

impl<T: Deserialize> Deserialize for Asn1SequenceOf<T> {
    ghost shape = { Shape.list_of ListKind.sequence T.shape };

    ghost facts = { list_facts T.facts T.meaning T.eq ListKind.sequence (λ it. it.0.items) };

    ghost proved = { Prim.assumption };

    fn deserialize<R: ReadExt>(de: &mut Deserializer<R>) -> Result<Asn1SequenceOf<T>> {
        Ok(Asn1SequenceOf(de.read_list(Tag::SEQUENCE)?))
    }
}

impl<T: Deserialize> Deserialize for Asn1SetOf<T> {
    ghost shape = { Shape.list_of ListKind.set T.shape };

    ghost facts = { list_facts T.facts T.meaning T.eq ListKind.set (λ it. it.0.items) };

    ghost proved = { Prim.assumption };

    // The first member whose encoding is less than that of the one before it is `InvalidData`, and no byte after it is
    // consumed (X.690, 11.6).
    fn deserialize<R: ReadExt>(de: &mut Deserializer<R>) -> Result<Asn1SetOf<T>>
        ensures ok { IfOk result (λ set. Reads (Shape.list_of ListKind.set T.shape) de.old de.new
            (Tree.list ListKind.set (trees (map T.meaning set.0.items)))) }
        ensures err { IfErr result (Refuses ⟦<Asn1SetOf<T> as Serialize>⟧.meaning
            (Shape.list_of ListKind.set T.shape) de.old de.new) }
        ensures order { IfErr result (RefusesUnordered T.meaning T.shape de.old de.new) }
        ensures refused_by { IfErr result (RefusesBy
            (list_of_rule T.meaning T.shape ListKind.set T.facts.rule) de.old de.new) }
    {
        Ok(Asn1SetOf(de.read_list(Tag::SET)?))
    }
}
