//! Members of a SEQUENCE as values of their own, by the names that the rows have for them.
ghost use Rattle.std.specs.Prelude.{refl};
ghost use Rattle.std.proofs.Common.{rules};
ghost use Rattle.picky_der_de.specs.MembersFacts.{struct_facts, sequence_of, sequence_shape};

use picky_asn1_der::misc::{ReadExt, WriteExt};
use picky_asn1_der::{
    Deserialize, DeserializeMembers, Deserializer, Result, Serialize, SerializeMembers, Serializer,
    Struct, deserialize_struct_as,
};

/// A sequence of these members: the row of `a` and `b` is `Row((a, (b, ())))`.
#[derive(Debug, Drop, PartialEq, Eq)]
pub(crate) struct Row<M>(pub(crate) M);

impl<M: SerializeMembers> Serialize for Row<M> {
    ghost meaning = { sequence_of M.members (λ row. row.0) };

    fn serialize<W: WriteExt>(&self, serializer: &mut Serializer<W>) -> Result<usize> {
        self.0.serialize_sequence(serializer)
    }
}

impl Struct for Row<()> {
    type Members = ();

    ghost parts = { λ row. row.0 };

    fn from_parts(members: ()) -> Row<()> {
        Row(members)
    }
}

impl Deserialize for Row<()> {
    ghost shape = { sequence_shape ⟦<() as DeserializeMembers>⟧.layout };

    ghost facts = { struct_facts ⟦<() as DeserializeMembers>⟧.facts refl (λ row. row.0) };

    fn deserialize<R: ReadExt>(deserializer: &mut Deserializer<R>) -> Result<Row<()>> {
        deserialize_struct_as(deserializer)
    }

    ghost proved = { record { premise = Prim.assumption; means = refl; equal = Prim.search rules } };
}

impl Struct for Row<(u8, ())> {
    type Members = (u8, ());

    ghost parts = { λ row. row.0 };

    fn from_parts(members: (u8, ())) -> Row<(u8, ())> {
        Row(members)
    }
}

impl Deserialize for Row<(u8, ())> {
    ghost shape = { sequence_shape ⟦<(u8, ()) as DeserializeMembers>⟧.layout };

    ghost facts = { struct_facts ⟦<(u8, ()) as DeserializeMembers>⟧.facts refl (λ row. row.0) };

    fn deserialize<R: ReadExt>(deserializer: &mut Deserializer<R>) -> Result<Row<(u8, ())>> {
        deserialize_struct_as(deserializer)
    }

    ghost proved = { record { premise = Prim.assumption; means = refl; equal = Prim.search rules } };
}

impl Struct for Row<(u8, (u8, ()))> {
    type Members = (u8, (u8, ()));

    ghost parts = { λ row. row.0 };

    fn from_parts(members: (u8, (u8, ()))) -> Row<(u8, (u8, ()))> {
        Row(members)
    }
}

impl Deserialize for Row<(u8, (u8, ()))> {
    ghost shape = { sequence_shape ⟦<(u8, (u8, ())) as DeserializeMembers>⟧.layout };

    ghost facts = { struct_facts ⟦<(u8, (u8, ())) as DeserializeMembers>⟧.facts refl (λ row. row.0) };

    fn deserialize<R: ReadExt>(deserializer: &mut Deserializer<R>) -> Result<Row<(u8, (u8, ()))>> {
        deserialize_struct_as(deserializer)
    }

    ghost proved = { record { premise = Prim.assumption; means = refl; equal = Prim.search rules } };
}

impl Struct for Row<(u8, (bool, ()))> {
    type Members = (u8, (bool, ()));

    ghost parts = { λ row. row.0 };

    fn from_parts(members: (u8, (bool, ()))) -> Row<(u8, (bool, ()))> {
        Row(members)
    }
}

impl Deserialize for Row<(u8, (bool, ()))> {
    ghost shape = { sequence_shape ⟦<(u8, (bool, ())) as DeserializeMembers>⟧.layout };

    ghost facts = { struct_facts ⟦<(u8, (bool, ())) as DeserializeMembers>⟧.facts refl (λ row. row.0) };

    fn deserialize<R: ReadExt>(
        deserializer: &mut Deserializer<R>,
    ) -> Result<Row<(u8, (bool, ()))>> {
        deserialize_struct_as(deserializer)
    }

    ghost proved = { record { premise = Prim.assumption; means = refl; equal = Prim.search rules } };
}

impl Struct for Row<(u8, (bool, ((), ((u8,), ()))))> {
    type Members = (u8, (bool, ((), ((u8,), ()))));

    ghost parts = { λ row. row.0 };

    fn from_parts(
        members: (u8, (bool, ((), ((u8,), ())))),
    ) -> Row<(u8, (bool, ((), ((u8,), ()))))> {
        Row(members)
    }
}

impl Deserialize for Row<(u8, (bool, ((), ((u8,), ()))))> {
    ghost shape = { sequence_shape ⟦<(u8, (bool, ((), ((u8,), ())))) as DeserializeMembers>⟧.layout };

    ghost facts = { struct_facts ⟦<(u8, (bool, ((), ((u8,), ())))) as DeserializeMembers>⟧.facts refl (λ row. row.0) };

    fn deserialize<R: ReadExt>(
        deserializer: &mut Deserializer<R>,
    ) -> Result<Row<(u8, (bool, ((), ((u8,), ()))))>> {
        deserialize_struct_as(deserializer)
    }

    ghost proved = { record { premise = Prim.assumption; means = refl; equal = Prim.search rules } };
}

impl Struct for Row<(u8, u8, u8, u8, u8, u8, ())> {
    type Members = (u8, u8, u8, u8, u8, u8, ());

    ghost parts = { λ row. row.0 };

    fn from_parts(members: (u8, u8, u8, u8, u8, u8, ())) -> Row<(u8, u8, u8, u8, u8, u8, ())> {
        Row(members)
    }
}

impl Deserialize for Row<(u8, u8, u8, u8, u8, u8, ())> {
    ghost shape = { sequence_shape ⟦<(u8, u8, u8, u8, u8, u8, ()) as DeserializeMembers>⟧.layout };

    ghost facts = { struct_facts ⟦<(u8, u8, u8, u8, u8, u8, ()) as DeserializeMembers>⟧.facts refl (λ row. row.0) };

    fn deserialize<R: ReadExt>(
        deserializer: &mut Deserializer<R>,
    ) -> Result<Row<(u8, u8, u8, u8, u8, u8, ())>> {
        deserialize_struct_as(deserializer)
    }

    ghost proved = { record { premise = Prim.assumption; means = refl; equal = Prim.search rules } };
}
