//! A struct of signed integers with defaults.
ghost use Rattle.std.specs.Prelude.{refl};
ghost use Rattle.picky_der_de.specs.MembersFacts.{struct_facts, sequence_of, sequence_shape};

use picky_asn1_der::asn1::ExplicitContextTag0;
use picky_asn1_der::misc::{ReadExt, WriteExt};
use picky_asn1_der::ser::{Defaulted, DefaultedRef, SignedNumber};
use picky_asn1_der::{
    Deserialize, DeserializeMembers, Deserializer, Result, Serialize, SerializeMembers, Serializer,
    Struct, deserialize_struct_as,
};

// A difference of times: -1 hour by default, and `[0] EXPLICIT` 7 seconds.
#[derive(Debug, Drop, PartialEq, Eq)]
pub(crate) struct Offset {
    hours: i8,
    seconds: ExplicitContextTag0<i64>,
}

impl Offset {
    pub(crate) fn new(hours: i8, seconds: i64) -> Offset {
        Offset {
            hours,
            seconds: ExplicitContextTag0::from(seconds),
        }
    }
}

type Members = (
    Defaulted<i8, SignedNumber<-1>>,
    Defaulted<ExplicitContextTag0<i64>, SignedNumber<7>>,
    (),
);

impl Struct for Offset {
    type Members = Members;

    ghost parts = { λ it. (
      record { value = it.hours; default = record {} },
      record { value = it.seconds; default = record {} },
      tt,
    ) };

    fn from_parts(members: Members) -> Offset {
        let (hours, seconds, ()) = members;
        Offset {
            hours: hours.value,
            seconds: seconds.value,
        }
    }
}

impl Serialize for Offset {
    ghost meaning = { sequence_of ⟦<Members as SerializeMembers>⟧.members ⟦<Self as Struct>⟧.parts };

    fn serialize<W: WriteExt>(&self, serializer: &mut Serializer<W>) -> Result<usize> {
        (
            DefaultedRef::<i8, SignedNumber<-1>>::new(&self.hours),
            DefaultedRef::<ExplicitContextTag0<i64>, SignedNumber<7>>::new(&self.seconds),
            (),
        )
            .serialize_sequence(serializer)
    }
}

impl Deserialize for Offset {
    ghost shape = { sequence_shape ⟦<Members as DeserializeMembers>⟧.layout };

    ghost facts = { struct_facts ⟦<Members as DeserializeMembers>⟧.facts refl ⟦<Self as Struct>⟧.parts };

    fn deserialize<R: ReadExt>(deserializer: &mut Deserializer<R>) -> Result<Offset> {
        deserialize_struct_as(deserializer)
    }

    ghost proved = { Prim.assumption };
}
