//! Readers and writers that rows name.

use der_fixtures::{FailingReader, WriterFault};
use std::io::ErrorKind;

/// The number of the call that fails, counted from 1, and its error. With 0, no call fails.
#[derive(Clone, Copy)]
pub(crate) struct Fault {
    call: usize,
    kind: ErrorKind,
}

impl Fault {
    const NONE: Fault = Fault {
        call: 0,
        kind: ErrorKind::Other,
    };

    /// The fault that `N with KIND` names.
    pub(crate) fn named(name: &str) -> Option<Fault> {
        let (call, kind) = name.split_once(" with ")?;
        Some(Fault {
            call: call.parse().ok()?,
            kind: fault_kind(kind)?,
        })
    }

    /// A reader of these bytes that returns one byte per call, and fails at that call.
    pub(crate) fn reader(self, bytes: &[u8]) -> FailingReader<'_> {
        FailingReader::new(bytes, self.call, self.kind)
    }
}

/// A reader that returns one byte per call, and how many bytes may be read from it.
#[derive(Clone, Copy)]
pub(crate) struct Device {
    pub(crate) limit: usize,
    pub(crate) fault: Fault,
}

impl Device {
    /// The reader that `limit LIMIT ` or `limit LIMIT failing at N with KIND ` names.
    pub(crate) fn named(name: &str) -> Option<Device> {
        let name = name.strip_prefix("limit ")?.strip_suffix(" ")?;
        let Some((limit, fault)) = name.split_once(" failing at ") else {
            return Some(Device {
                limit: name.parse().ok()?,
                fault: Fault::NONE,
            });
        };
        Some(Device {
            limit: limit.parse().ok()?,
            fault: Fault::named(fault)?,
        })
    }
}

/// Which call of a writer fails, how, and the text after that: `N with KIND: REST`.
pub(crate) fn refused_call(text: &str) -> Option<(usize, WriterFault, &str)> {
    let (fault, rest) = text.split_once(": ")?;
    let (call, kind) = fault.split_once(" with ")?;
    Some((call.parse().ok()?, refusal_named(kind)?, rest))
}

/// The failure of a writer with this name.
pub(crate) fn refusal_named(name: &str) -> Option<WriterFault> {
    match name {
        "nothing taken" => Some(WriterFault::TakesNothing),
        _ => Some(WriterFault::Error(fault_kind(name)?)),
    }
}

/// The kind of error with this name.
pub(crate) fn fault_kind(name: &str) -> Option<ErrorKind> {
    match name {
        "BrokenPipe" => Some(ErrorKind::BrokenPipe),
        "Interrupted" => Some(ErrorKind::Interrupted),
        "OutOfMemory" => Some(ErrorKind::OutOfMemory),
        "TimedOut" => Some(ErrorKind::TimedOut),
        "UnexpectedEof" => Some(ErrorKind::UnexpectedEof),
        "WriteZero" => Some(ErrorKind::WriteZero),
        _ => None,
    }
}
