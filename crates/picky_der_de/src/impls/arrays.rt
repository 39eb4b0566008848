//! Arrays, as they are read.
ghost use Rattle.std.specs.Prelude.{length, IfOk, IfErr, OnOk};
ghost use Rattle.picky_der_core.specs.Tree.{ListKind, Tree};
ghost use Rattle.picky_der_core.specs.Shape.{Shape};
ghost use Rattle.picky_der_ser.specs.Meaning.{list_meaning, array_meaning};
ghost use Rattle.picky_der_de.specs.Reading.{Reads, Refuses};
ghost use Rattle.picky_der_de.specs.ArrayLaws.{array_of};
ghost use Rattle.picky_der_de.specs.ContainerFacts.{array_facts};

use crate::{Deserialize, Deserializer};
use picky_der_core::Result;
use picky_der_core::misc::ReadExt;

// Reads a sequence of as many members as there are slots, into the slots.
fn read_into<T: Deserialize + Copy, R: ReadExt>(
    slots: &mut [T],
    de: &mut Deserializer<R>,
) -> Result<()>
    ensures ok { OnOk result (Reads (array_of (length slots.old) T.shape) de.old de.new
        (list_meaning ListKind.sequence T.meaning slots.new)) }
    ensures err { IfErr result (Refuses (list_meaning ListKind.sequence T.meaning)
        (array_of (length slots.old) T.shape) de.old de.new) }
{
    let mut members = de.deserialize_seq()?;
    for at in 0..slots.len() {
        slots[at] = members.next_field::<T>()?;
    }
    members.end()
}

// A value that is there before it is read: an array with a default in each slot.
trait Fill: Drop + Sized {
    ghost meaning: { Self → Tree };

    ghost shape: { Shape };

    // One that is yet to be read.
    fn unread() -> Self;

    // Reads the value into this one.
    fn fill<R: ReadExt>(&mut self, de: &mut Deserializer<R>) -> Result<()>
        ensures ok { OnOk result (Reads shape de.old de.new (meaning self.new)) }
        ensures err { IfErr result (Refuses meaning shape de.old de.new) };
}

// Reads into a value that is there already. This is all that `deserialize` of an array does. That function returns the
// array in a `Result`, which the borrow checker doesn't cover. So it makes this one call and is proved by hand.
fn read_filled<V: Fill, R: ReadExt>(de: &mut Deserializer<R>) -> Result<V>
    ensures ok { IfOk result (λ value. Reads V.shape de.old de.new (V.meaning value)) }
    ensures err { IfErr result (Refuses V.meaning V.shape de.old de.new) }
{
    let mut value = V::unread();
    value.fill(de)?;
    Ok(value)
}

impl<T: Deserialize + Copy + Default, const N: usize> Fill for [T; N] {
    ghost meaning = { array_meaning N T.meaning };

    ghost shape = { array_of N T.shape };

    fn unread() -> [T; N] {
        [T::default(); N]
    }

    fn fill<R: ReadExt>(&mut self, de: &mut Deserializer<R>) -> Result<()> {
        read_into(self, de)
    }
}

impl<T: Deserialize + Copy + Default, const N: usize> Deserialize for [T; N] {
    ghost shape = { array_of N T.shape };

    ghost facts = { array_facts T.facts T.meaning T.eq N (λ it. it) };

    ghost proved = { Prim.assumption };

    fn deserialize<R: ReadExt>(de: &mut Deserializer<R>) -> Result<[T; N]> {
        read_filled(de)
    }
}
