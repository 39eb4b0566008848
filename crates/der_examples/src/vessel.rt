//! A struct of twenty fields, of which eight may be absent.
mod derived;

use crate::{NumberOrFlag, Point, Setting};
use picky_asn1_der::asn1::{
    ByteBuf, ExplicitContextTag0, ExplicitContextTag1, ExplicitContextTag2, ExplicitContextTag3,
};

/// A vessel in a harbor, as a SEQUENCE of twenty members.
// asn1: clone
#[derive(Debug, Drop, PartialEq, Eq)]
pub struct Vessel {
    /// Its name.
    pub name: String,
    /// Its number.
    pub number: u32,
    /// Its call sign on the radio, under the tag `[0]`.
    pub call_sign: Option<ExplicitContextTag0<String>>,
    /// How many tons it carries.
    pub tonnage: u64,
    /// Whether it belongs to a navy: FALSE by default.
    pub is_military: bool, // asn1: default FALSE
    /// Where it comes from.
    pub home: Point,
    /// How many decks it has.
    pub decks: u8,
    /// The owner, under the tag `[1]`.
    pub owner: Option<ExplicitContextTag1<Setting>>,
    /// The mark of the customs.
    pub seal: Option<ByteBuf>,
    /// The setting of the engine.
    pub engine: Setting,
    /// Its speeds in the last days.
    pub speeds: Vec<u16>,
    /// Its berth, under the tag `[2]`.
    pub berth: Option<ExplicitContextTag2<Point>>,
    /// Its length and its width.
    pub size: (u16, u16),
    /// Whether it is moored.
    pub is_moored: bool,
    /// The number of its flag, or whether it shows a flag.
    pub flag: NumberOrFlag,
    /// The name of the pilot.
    pub pilot: Option<String>,
    /// The numbers of its tugs.
    pub tugs: Option<Vec<u16>>,
    /// Its draught.
    pub draught: u32,
    /// The chart of the harbor.
    pub chart: ByteBuf,
    /// A remark, under the tag `[3]`.
    pub remark: Option<ExplicitContextTag3<String>>,
}
