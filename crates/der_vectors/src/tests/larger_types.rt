//! A struct of twenty members, a choice of twelve alternatives in a list, and an envelope around values of three types.
//!
//! The encodings are from pyasn1 0.6.3, by `pyasn1.codec.der.encoder.encode` of the same ASN.1 types. It leaves out the
//! default and the absent members, and sorts the SET OF. A refused input is such an encoding with one change, which its
//! test names.

use crate::tests::checks::{is_encoded, is_refused, text};
use der_elements::AnyElement;
use der_examples::{
    Bundle, Command, Marker, Named, NumberOrFlag, Point, Script, Setting, Signed, Step, Vessel,
};
use der_types::{BitString, ObjectIdentifier};
use der_x509::AlgorithmIdentifier;
use picky_asn1_der::Asn1DerError;
use picky_asn1_der::Asn1DerError::{InvalidData, TruncatedData};
use picky_asn1_der::asn1::{
    Asn1SetOf, ByteBuf, ExplicitContextTag, ImplicitContextTag, ImplicitList,
};
use std::process::Abort;

const EVERY_MEMBER: &str =
    "30 81 97 0C 06 41 75 72 6F 72 61 02 04 00 8A 78 29 A0 06 0C 04 4C 4D 58 59 02 09 00 FF FF FF FF FF FF FF FF 01 01 FF 30 0A 02 01 03 02 02 01 F4 01 01 00 02 01 0C A1 06 0C 04 4E 6F 72 64 04 04 DE AD BE EF 30 07 02 01 01 02 02 01 2C 30 0F 02 01 00 02 01 7F 02 02 00 80 02 03 00 FF FF A2 0F 30 0D 02 05 00 FF FF FF FF 02 01 00 01 01 FF 30 07 02 02 00 C8 02 01 20 01 01 FF 02 01 07 0C 04 5A 6F C3 AB 30 06 02 01 04 02 01 09 02 02 03 84 04 02 00 FF A3 04 0C 02 6F 6B";

const NO_OPTIONAL_MEMBER: &str =
    "30 42 0C 06 41 75 72 6F 72 61 02 04 00 8A 78 29 02 09 00 FF FF FF FF FF FF FF FF 30 0A 02 01 03 02 02 01 F4 01 01 00 02 01 0C 02 01 00 30 00 30 07 02 02 00 C8 02 01 20 01 01 FF 01 01 00 02 02 03 84 04 00";

const WRITTEN_DEFAULT: &str =
    "30 45 0C 06 41 75 72 6F 72 61 02 04 00 8A 78 29 02 09 00 FF FF FF FF FF FF FF FF 01 01 00 30 0A 02 01 03 02 02 01 F4 01 01 00 02 01 0C 02 01 00 30 00 30 07 02 02 00 C8 02 01 20 01 01 FF 01 01 00 02 02 03 84 04 00";

const TWO_CALL_SIGNS: &str =
    "30 52 0C 06 41 75 72 6F 72 61 02 04 00 8A 78 29 A0 06 0C 04 4C 4D 58 59 A0 06 0C 04 4C 4D 58 59 02 09 00 FF FF FF FF FF FF FF FF 30 0A 02 01 03 02 02 01 F4 01 01 00 02 01 0C 02 01 00 30 00 30 07 02 02 00 C8 02 01 20 01 01 FF 01 01 00 02 02 03 84 04 00";

const NO_CHART: &str =
    "30 40 0C 06 41 75 72 6F 72 61 02 04 00 8A 78 29 02 09 00 FF FF FF FF FF FF FF FF 30 0A 02 01 03 02 02 01 F4 01 01 00 02 01 0C 02 01 00 30 00 30 07 02 02 00 C8 02 01 20 01 01 FF 01 01 00 02 02 03 84";

const NULL_AT_THE_END: &str =
    "30 44 0C 06 41 75 72 6F 72 61 02 04 00 8A 78 29 02 09 00 FF FF FF FF FF FF FF FF 30 0A 02 01 03 02 02 01 F4 01 01 00 02 01 0C 02 01 00 30 00 30 07 02 02 00 C8 02 01 20 01 01 FF 01 01 00 02 02 03 84 04 00 05 00";

const SCRIPT: &str =
    "30 81 B9 30 12 02 01 00 A0 0D 30 0B 02 02 01 00 02 02 00 80 01 01 FF 30 07 02 01 64 81 02 00 C8 30 20 02 02 00 C8 A2 1A 30 18 30 09 02 01 00 02 01 00 01 01 00 30 0B 02 02 01 00 02 02 00 80 01 01 FF 30 07 02 02 01 2C 83 01 FF 30 08 02 02 01 90 84 02 68 69 30 09 02 02 01 F4 A5 03 02 01 05 30 06 02 02 02 58 86 00 30 08 02 02 02 BC 87 02 AA BB 30 0D 02 02 03 20 A8 07 02 01 01 02 02 03 E8 30 0B 02 02 03 84 89 05 01 00 00 00 00 30 1B 02 02 03 E8 AA 15 30 13 30 06 04 01 41 02 01 07 30 09 02 01 00 02 01 00 01 01 00 30 0F 02 02 04 4C AB 09 31 07 04 01 02 04 02 01 00";

const BUNDLE: &str =
    "30 54 30 17 02 02 00 80 30 0D 06 09 2A 86 48 86 F7 0D 01 01 0B 05 00 03 02 04 A0 30 19 30 0B 02 02 01 00 02 02 00 80 01 01 FF 30 05 06 03 2B 65 70 03 03 00 01 FF 30 1E 30 12 30 07 02 01 64 81 02 00 C8 30 07 02 02 01 2C 83 01 FF 30 05 06 03 2B 65 70 03 01 00";

const EMPTY_BUNDLE: &str =
    "30 34 30 0D 02 01 00 30 05 06 03 2B 65 70 03 01 00 30 15 30 09 02 01 00 02 01 00 01 01 00 30 05 06 03 2B 65 70 03 01 00 30 0C 30 00 30 05 06 03 2B 65 70 03 01 00";

const HOME: Point = Point {
    x: 3,
    y: 500,
    hidden: false,
};

const BERTH: Point = Point {
    x: u32::MAX,
    y: 0,
    hidden: true,
};

const ORIGIN: Point = Point {
    x: 0,
    y: 0,
    hidden: false,
};

const FAR: Point = Point {
    x: 256,
    y: 128,
    hidden: true,
};

// The members of a list, or the bytes of a string.
fn list<T: Copy>(rt: &(impl Abort + AllocGlobal), members: &[T]) -> Vec<T> {
    Vec::from_slice(rt.alloc(), members).expect(rt, "memory")
}

fn octets(rt: &(impl Abort + AllocGlobal), bytes: &[u8]) -> ByteBuf {
    ByteBuf(list(rt, bytes))
}

fn with_every_member(rt: &(impl Abort + AllocGlobal)) -> Vessel {
    Vessel {
        name: text(rt, "Aurora"),
        number: 9_074_729,
        call_sign: Some(ExplicitContextTag(text(rt, "LMXY"))),
        tonnage: u64::MAX,
        is_military: true,
        home: HOME,
        decks: 12,
        owner: Some(ExplicitContextTag(Setting::Text(text(rt, "Nord")))),
        seal: Some(octets(rt, &[0xDE, 0xAD, 0xBE, 0xEF])),
        engine: Setting::Numbers(list(rt, &[1, 300])),
        speeds: list(rt, &[0, 127, 128, 65535]),
        berth: Some(ExplicitContextTag(BERTH)),
        size: (200, 32),
        is_moored: true,
        flag: NumberOrFlag::Number(7),
        pilot: Some(text(rt, "Zoë")),
        tugs: Some(list(rt, &[4, 9])),
        draught: 900,
        chart: octets(rt, &[0x00, 0xFF]),
        remark: Some(ExplicitContextTag(text(rt, "ok"))),
    }
}

fn with_no_optional_member(rt: &(impl Abort + AllocGlobal)) -> Vessel {
    Vessel {
        name: text(rt, "Aurora"),
        number: 9_074_729,
        call_sign: None,
        tonnage: u64::MAX,
        is_military: false,
        home: HOME,
        decks: 12,
        owner: None,
        seal: None,
        engine: Setting::Number(0),
        speeds: Vec::new(rt.alloc()),
        berth: None,
        size: (200, 32),
        is_moored: true,
        flag: NumberOrFlag::Flag(false),
        pilot: None,
        tugs: None,
        draught: 900,
        chart: octets(rt, &[]),
        remark: None,
    }
}

fn is_no_vessel(rt: &(impl Abort + AllocGlobal), encoding: &str, error: Asn1DerError) {
    is_refused::<Vessel>(rt, encoding, error);
}

#[test]
fn a_vessel_has_twenty_members(rt: HostRuntime) {
    is_encoded(&rt, with_every_member(&rt), EVERY_MEMBER);
    is_encoded(&rt, with_no_optional_member(&rt), NO_OPTIONAL_MEMBER);
    is_no_vessel(&rt, WRITTEN_DEFAULT, InvalidData);
    is_no_vessel(&rt, TWO_CALL_SIGNS, InvalidData);
    is_no_vessel(&rt, NO_CHART, TruncatedData);
    is_no_vessel(&rt, NULL_AT_THE_END, InvalidData);
}

fn add(rt: &impl Abort, script: &mut Script, at: u32, command: Command) {
    script.push(Step { at, command }).expect(rt, "memory");
}

// The first six alternatives.
fn add_first(rt: &(impl Abort + AllocGlobal), script: &mut Script) {
    let points = vec![in rt.alloc(); ORIGIN, FAR].expect(rt, "memory");
    let text = text(rt, "hi");
    add(rt, script, 0, Command::Move(ExplicitContextTag(FAR)));
    add(rt, script, 100, Command::Wait(ImplicitContextTag(200)));
    add(rt, script, 200, Command::Follow(ExplicitContextTag(points)));
    add(rt, script, 300, Command::Lift(ImplicitContextTag(true)));
    add(rt, script, 400, Command::Say(ImplicitContextTag(text)));
    add(
        rt,
        script,
        500,
        Command::Adjust(ExplicitContextTag(Setting::Number(5))),
    );
}

// The last six alternatives.
fn add_last(rt: &(impl Abort + AllocGlobal), script: &mut Script) {
    let font = octets(rt, &[0xAA, 0xBB]);
    let speeds = list(rt, &[1, 1000]);
    let name = octets(rt, b"A");
    let label = Named { name, value: 7 };
    let names = vec![in rt.alloc(); octets(rt, &[2]), octets(rt, &[1, 0])].expect(rt, "memory");
    add(rt, script, 600, Command::Stop(ImplicitContextTag(())));
    add(rt, script, 700, Command::Load(ImplicitContextTag(font)));
    add(rt, script, 800, Command::Speeds(ImplicitList(speeds)));
    add(
        rt,
        script,
        900,
        Command::Repeat(ImplicitContextTag(1 << 32)),
    );
    add(
        rt,
        script,
        1000,
        Command::Mark(ExplicitContextTag(Marker { label, at: ORIGIN })),
    );
    add(
        rt,
        script,
        1100,
        Command::Forget(ExplicitContextTag(Asn1SetOf(names))),
    );
}

#[test]
fn a_script_has_each_command(rt: HostRuntime) {
    let mut script = Vec::new(rt.alloc());
    add_first(&rt, &mut script);
    add_last(&rt, &mut script);
    is_encoded(&rt, script, SCRIPT);
    // The tag [12], and the tag [8] without the bit of a constructed encoding.
    is_refused::<Command>(&rt, "8C 00", InvalidData);
    is_refused::<Command>(&rt, "88 07 02 01 01 02 02 03 E8", InvalidData);
    // A NULL with a content, and a step without its command.
    is_refused::<Script>(&rt, "30 08 30 06 02 01 00 86 01 00", InvalidData);
    is_refused::<Script>(&rt, "30 05 30 03 02 01 00", TruncatedData);
}

fn oid(rt: &(impl Abort + AllocGlobal), arcs: &str) -> ObjectIdentifier {
    ObjectIdentifier::from_str(rt.alloc(), arcs).expect(rt, "an object identifier")
}

// A value with the algorithm Ed25519 and a signature of whole bytes.
fn signed<T: Drop>(rt: &(impl Abort + AllocGlobal), content: T, signature: &[u8]) -> Signed<T> {
    Signed {
        content,
        algorithm: AlgorithmIdentifier {
            algorithm: oid(rt, "1.3.101.112"),
            parameters: None,
        },
        signature: BitString::from_bytes(rt.alloc(), signature, 0).expect(rt, "a bit string"),
    }
}

#[test]
fn a_bundle_has_three_signed_values(rt: HostRuntime) {
    let null = AnyElement::from_value(rt.alloc(), &());
    let sha256_with_rsa = AlgorithmIdentifier {
        algorithm: oid(&rt, "1.2.840.113549.1.1.11"),
        parameters: Some(null.expect(&rt, "an element")),
    };
    let bits = BitString::from_bits(rt.alloc(), &[true, false, true, false]);
    let number = Signed {
        content: 128,
        algorithm: sha256_with_rsa,
        signature: bits.expect(&rt, "a bit string"),
    };
    let mut script = Vec::new(rt.alloc());
    add(
        &rt,
        &mut script,
        100,
        Command::Wait(ImplicitContextTag(200)),
    );
    add(
        &rt,
        &mut script,
        300,
        Command::Lift(ImplicitContextTag(true)),
    );
    let bundle = Bundle {
        number,
        point: signed(&rt, FAR, &[0x01, 0xFF]),
        commands: signed(&rt, script, &[]),
    };
    is_encoded(&rt, bundle, BUNDLE);
}

#[test]
fn a_bundle_may_have_no_parameters(rt: HostRuntime) {
    let bundle = Bundle {
        number: signed(&rt, 0, &[]),
        point: signed(&rt, ORIGIN, &[]),
        commands: signed(&rt, Vec::new(rt.alloc()), &[]),
    };
    is_encoded(&rt, bundle, EMPTY_BUNDLE);
    // A BOOLEAN instead of the number, and 8 unused bits.
    is_refused::<Signed<u32>>(
        &rt,
        "30 0D 01 01 00 30 05 06 03 2B 65 70 03 01 00",
        InvalidData,
    );
    is_refused::<Signed<u32>>(
        &rt,
        "30 0D 02 01 00 30 05 06 03 2B 65 70 03 01 08",
        InvalidData,
    );
}
