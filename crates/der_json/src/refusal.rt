//! Why there is no message with a JSON, and where.
ghost use Rattle.std.specs.Prelude.{◌≡◌, Some, string_bytes};
ghost use Rattle.serde_json.specs.Data.{Data};
ghost use Rattle.serde_json.specs.Find.{at, get};
ghost use Rattle.der_json.specs.Refusals.{IsMistake, IsRefusal, step_in};

use std::alloc::{AllocError, AllocFailed, Global};
use std::fmt;
use thiserror::Error;

/// Why there is no message with a JSON.
#[derive(Debug, Drop, Error)]
pub enum FromJsonError {
    /// A text isn't JSON (RFC 8259).
    #[error("{0}")]
    Text(serde_json::Error),
    /// The JSON isn't that of a value of the type.
    #[error("{0}")]
    Refused(JsonRefusal),
    /// An allocation failed.
    #[error("out of memory")]
    OutOfMemory,
}

/// Where a JSON isn't that of a value of a type, and what is wrong there. It prints as `no such item at `a.b[2]``.
#[derive(Debug, Drop)]
pub struct JsonRefusal {
    /// The steps from the whole to the place. They are in the JSON.
    pub path: Vec<JsonStep>,
    /// What is wrong there.
    pub mistake: JsonMistake,
}

/// A step into JSON.
#[derive(Debug, Drop)]
pub enum JsonStep {
    /// To the member of an object with this name.
    Member(String),
    /// To the item of an array with this index.
    Item(usize),
}

/// What is wrong with JSON.
#[derive(Debug, Clone, Copy, PartialEq, Eq, Error)]
pub enum JsonMistake {
    /// It has another form than the type has.
    #[error("expected {}", .0.name())]
    Form(JsonForm),
    /// It is an object without a member of this name, which is never absent (X.680, 25).
    #[error("no member `{0}`")]
    Missing(&'static str),
    /// The type has no member or alternative of this name.
    #[error("no such member")]
    Unknown,
    /// An object has a member of this name twice (RFC 8259, 4).
    #[error("a member that is there twice")]
    Twice,
    /// No item of the ENUMERATED has this name (X.680, 20).
    #[error("no such item")]
    Item,
    /// The type doesn't have this number (X.680, 51.4), or it has more digits than `to_json` writes.
    #[error("a number that the type doesn't have")]
    Number,
    /// The type doesn't have this size (X.680, 51.5).
    #[error("a size that the type doesn't have")]
    Size,
    /// The type doesn't have one of the characters (X.680, 41, 51.7).
    #[error("a character that the type doesn't have")]
    Character,
    /// `length` isn't the number of bits of `value`.
    #[error("another number of bits than `length`")]
    Length,
    /// Bits with names end with a bit that is 0 (X.690, 11.2.2).
    #[error("a last bit that is 0 (X.690, 11.2.2)")]
    LastBit,
    /// It isn't one of this type in DER.
    #[error("no {0} of DER")]
    Content(&'static str),
    /// An item of a SET OF has a lesser encoding than the one before it (X.690, 11.6).
    #[error("less than the one before it (X.690, 11.6)")]
    Order,
    /// A member has its default, with which it is absent (X.690, 11.5).
    #[error("a default that is written out (X.690, 11.5)")]
    Default,
    /// `to_json` writes the value in another way.
    #[error("not as JSON is written of this value")]
    Spelling,
    /// A node of the schema doesn't come after one that it names.
    #[error("a schema out of order")]
    Schema,
}

/// A form of JSON.
#[derive(Debug, Clone, Copy, PartialEq, Eq)]
pub enum JsonForm {
    /// `true` or `false`.
    Boolean,
    /// A number without a fraction, or a text of the digits of one.
    Integer,
    /// A text.
    Text,
    /// A text of hexadecimal digits, two for each byte.
    Hexadecimal,
    /// `null`.
    Null,
    /// An object.
    Object,
    /// An object of one member.
    Alternative,
    /// An object of the members `length` and `value`.
    Bits,
    /// An array.
    Array,
}

impl JsonForm {
    /// What messages call it.
    pub fn name(self) -> &'static str {
        match self {
            JsonForm::Boolean => "true or false",
            JsonForm::Integer => "an integer",
            JsonForm::Text => "a text",
            JsonForm::Hexadecimal => "hexadecimal digits",
            JsonForm::Null => "null",
            JsonForm::Object => "an object",
            JsonForm::Alternative => "an object of one member",
            JsonForm::Bits => "an object of `length` and `value`",
            JsonForm::Array => "an array",
        }
    }
}

impl JsonRefusal {
    /// Returns the path by names, as `tbsCertificate.extensions[3].extnID`: a member by its name, and an item by its
    /// index in brackets. The text is empty for the whole.
    ///
    /// `AllocError` if an allocation fails.
    pub fn names(&self, alloc: Global) -> Result<String, AllocError> {
        Names { path: &self.path }.to_string(alloc)
    }
}

impl fmt::Display for JsonRefusal {
    fn fmt<W: fmt::Write>(&self, f: &mut fmt::Formatter<W>) -> fmt::Result {
        let mistake = self.mistake;
        if self.path.is_empty() {
            return write!(f, "{mistake}");
        }
        let names = Names { path: &self.path };
        write!(f, "{mistake} at `{names}`")
    }
}

// A path that prints by names.
#[derive(Clone, Copy)]
struct Names<'a> {
    path: &'a [JsonStep],
}

impl fmt::Display for Names<'_> {
    fn fmt<W: fmt::Write>(&self, f: &mut fmt::Formatter<W>) -> fmt::Result {
        let mut point = "";
        for step in self.path {
            match step {
                JsonStep::Member(name) => write!(f, "{point}{name}")?,
                JsonStep::Item(index) => write!(f, "[{index}]")?,
            }
            point = ".";
        }
        Ok(())
    }
}

impl FromJsonError {
    // The refusal of a whole.
    pub(crate) fn of(alloc: Global, mistake: JsonMistake) -> FromJsonError
        ensures { (whole : Data) → IsMistake mistake whole → IsRefusal whole result }
    {
        FromJsonError::Refused(JsonRefusal {
            path: Vec::new(alloc),
            mistake,
        })
    }

    // The same refusal of the value around the one that was refused, in which it is the member with this name.
    pub(crate) fn in_member(self, alloc: Global, name: &str) -> FromJsonError
        ensures { (whole inside : Data) → get name.now whole ≡ Some inside → IsRefusal inside self
            → IsRefusal whole result }
    {
        match String::from_str(alloc, name) {
            Ok(name) => self.in_step(JsonStep::Member(name)),
            Err(_) => FromJsonError::OutOfMemory,
        }
    }

    // The same refusal of the array of which what was refused is the item at this index.
    pub(crate) fn in_item(self, index: usize) -> FromJsonError
        ensures { (whole inside : Data) → at index whole ≡ Some inside → IsRefusal inside self
            → IsRefusal whole result }
    {
        self.in_step(JsonStep::Item(index))
    }

    fn in_step(self, step: JsonStep) -> FromJsonError
        ensures { (whole inside : Data) → step_in step whole ≡ Some inside → IsRefusal inside self
            → IsRefusal whole result }
    {
        match self {
            FromJsonError::Refused(mut refusal) => match refusal.path.insert(0, step) {
                Ok(()) => FromJsonError::Refused(refusal),
                Err(_) => FromJsonError::OutOfMemory,
            },
            error => error,
        }
    }
}

/// Out of memory.
impl From<AllocError> for FromJsonError {
    ghost use Rattle.std.specs.Prelude.{◌≡◌};
    ghost use Rattle.der_json.specs.declared.refusal.FromJsonError.TheVariants.{OutOfMemory};

    ghost from_gives = { λ _ e. e ≡ OutOfMemory };

    fn from(_: AllocError) -> Self {
        FromJsonError::OutOfMemory
    }
}

/// Out of memory. The value that could not be stored is dropped.
impl<T: Drop> From<AllocFailed<T>> for FromJsonError {
    ghost use Rattle.std.specs.Prelude.{◌≡◌};
    ghost use Rattle.der_json.specs.declared.refusal.FromJsonError.TheVariants.{OutOfMemory};

    ghost from_gives = { λ _ e. e ≡ OutOfMemory };

    fn from(_: AllocFailed<T>) -> Self {
        FromJsonError::OutOfMemory
    }
}
