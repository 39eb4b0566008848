//! Short contents that are read into a value without a vector.
ghost use Rattle.std.specs.Prelude.{[], ◌∷◌};

use crate::tests::checks::bytes;
use picky_asn1_der::Deserializer;
use picky_asn1_der::asn1::Tag;
use picky_der_de::ShortContent;
use std::alloc::Global;

// A content of one byte.
#[derive(Drop)]
struct OneByte(u8);

impl ShortContent for OneByte {
    ghost content = { λ it. it.0 ∷ [] };

    fn of_short(_alloc: Global, bytes: &[u8]) -> Option<OneByte> {
        match bytes {
            [byte] => Some(OneByte(*byte)),
            _ => None,
        }
    }
}

#[test]
fn one_of_which_a_value_is_made_is_consumed(rt: HostRuntime) {
    let mut de = Deserializer::new_from_bytes(rt.alloc(), &[0x04, 0x01, 0x07, 0x05, 0x00]);
    let read = de.deserialize_short::<OneByte>(Tag::OCTET_STRING);
    same!(rt; read.map(|it| it.0), Some(7));
    same!(rt; de.taken(), 3);
}

#[test]
fn any_other_is_left(rt: HostRuntime) {
    let mut de = Deserializer::new_from_bytes(rt.alloc(), &[0x04, 0x02, 0x07, 0x08]);
    let other_tag = de.deserialize_short::<OneByte>(Tag::UTF8_STRING);
    same!(rt; other_tag.is_none(), true);
    let longer = de.deserialize_short::<OneByte>(Tag::OCTET_STRING);
    same!(rt; longer.is_none(), true);
    same!(rt; de.taken(), 0);
    let read = de.deserialize_tagged_bytes(Tag::OCTET_STRING);
    same!(rt; read, Ok(bytes(&rt, "07 08")));
}
