//! A struct in which all members have defaults.
ghost use Rattle.std.specs.Prelude.{refl};
ghost use Rattle.picky_der_de.specs.MembersFacts.{struct_facts, sequence_of, sequence_shape};

use picky_asn1_der::asn1::ExplicitContextTag0;
use picky_asn1_der::misc::{ReadExt, WriteExt};
use picky_asn1_der::ser::{Defaulted, DefaultedRef, Number, True};
use picky_asn1_der::{
    Deserialize, DeserializeMembers, Deserializer, Result, Serialize, SerializeMembers, Serializer,
    Struct, deserialize_struct_as,
};

/// The settings of a lamp, as a SEQUENCE.
#[derive(Debug, Drop, PartialEq, Eq)]
pub(crate) struct Lamp {
    /// How bright it is: 5 by default.
    pub(crate) brightness: u8,
    /// Whether it is on: TRUE by default.
    pub(crate) is_on: bool,
    /// After how many seconds it goes out, `[0] EXPLICIT`: 7 by default.
    pub(crate) delay: ExplicitContextTag0<u16>,
}

type Members = (
    Defaulted<u8, Number<5>>,
    Defaulted<bool, True>,
    Defaulted<ExplicitContextTag0<u16>, Number<7>>,
    (),
);

impl Struct for Lamp {
    type Members = Members;

    ghost parts = { λ it. (
      record { value = it.brightness; default = record {} },
      record { value = it.is_on; default = record {} },
      record { value = it.delay; default = record {} },
      tt,
    ) };

    fn from_parts(members: Members) -> Lamp {
        let (brightness, is_on, delay, ()) = members;
        Lamp {
            brightness: brightness.value,
            is_on: is_on.value,
            delay: delay.value,
        }
    }
}

impl Serialize for Lamp {
    ghost meaning = { sequence_of ⟦<Members as SerializeMembers>⟧.members ⟦<Self as Struct>⟧.parts };

    fn serialize<W: WriteExt>(&self, serializer: &mut Serializer<W>) -> Result<usize> {
        (
            DefaultedRef::<u8, Number<5>>::new(&self.brightness),
            DefaultedRef::<bool, True>::new(&self.is_on),
            DefaultedRef::<ExplicitContextTag0<u16>, Number<7>>::new(&self.delay),
            (),
        )
            .serialize_sequence(serializer)
    }
}

impl Deserialize for Lamp {
    ghost shape = { sequence_shape ⟦<Members as DeserializeMembers>⟧.layout };

    ghost facts = { struct_facts ⟦<Members as DeserializeMembers>⟧.facts refl ⟦<Self as Struct>⟧.parts };

    fn deserialize<R: ReadExt>(deserializer: &mut Deserializer<R>) -> Result<Lamp> {
        deserialize_struct_as(deserializer)
    }

    ghost proved = { Prim.assumption };
}
