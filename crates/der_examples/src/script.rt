//! A choice of twelve, a struct with that choice as a field, and a list of these structs.
mod derived;

use crate::{Marker, Point, Setting};
use picky_asn1_der::asn1::{
    Asn1SetOf, ByteBuf, ExplicitContextTag0, ExplicitContextTag2, ExplicitContextTag5,
    ExplicitContextTag10, ExplicitContextTag11, ImplicitContextTag1, ImplicitContextTag3,
    ImplicitContextTag4, ImplicitContextTag6, ImplicitContextTag7, ImplicitContextTag9,
    ImplicitList,
};

/// A command for a plotter, as a CHOICE of twelve.
#[derive(Debug, Clone, Drop, PartialEq, Eq)]
pub enum Command {
    /// `[0] EXPLICIT`: go to a point.
    Move(ExplicitContextTag0<Point>),
    /// `[1] IMPLICIT INTEGER`: wait this many seconds.
    Wait(ImplicitContextTag1<u32>),
    /// `[2] EXPLICIT SEQUENCE OF`: go to each point.
    Follow(ExplicitContextTag2<Vec<Point>>),
    /// `[3] IMPLICIT BOOLEAN`: whether the pen is up from now on.
    Lift(ImplicitContextTag3<bool>),
    /// `[4] IMPLICIT UTF8String`: show a text.
    Say(ImplicitContextTag4<String>),
    /// `[5] EXPLICIT`, a CHOICE: set the pen.
    Adjust(ExplicitContextTag5<Setting>),
    /// `[6] IMPLICIT NULL`: stop.
    Stop(ImplicitContextTag6<()>),
    /// `[7] IMPLICIT OCTET STRING`: load a font.
    Load(ImplicitContextTag7<ByteBuf>),
    /// `[8] IMPLICIT SEQUENCE OF INTEGER`: the speeds from now on.
    Speeds(ImplicitList<Vec<u16>, 0xA8>),
    /// `[9] IMPLICIT INTEGER`: repeat the last step this many times.
    Repeat(ImplicitContextTag9<u64>),
    /// `[10] EXPLICIT`: mark a point.
    Mark(ExplicitContextTag10<Marker>),
    /// `[11] EXPLICIT SET OF OCTET STRING`: forget these names.
    Forget(ExplicitContextTag11<Asn1SetOf<ByteBuf>>),
}

/// A command and its time, as a SEQUENCE.
#[derive(Debug, Clone, Drop, PartialEq, Eq)]
pub struct Step {
    /// The time in seconds after the start.
    pub at: u32,
    /// The command.
    pub command: Command,
}

/// The commands for a plotter: a SEQUENCE OF steps.
pub type Script = Vec<Step>;
