//! An ENUMERATED whose values have names.
mod derived;

/// The outcome of a request for the status of a certificate, as an ENUMERATED (RFC 6960, 4.2.1). Every other content is
/// refused with `InvalidData`.
// asn1: exact
#[derive(Debug, Clone, Copy, PartialEq, Eq)]
pub enum ResponseStatus {
    /// The response has the status: 0.
    Successful,
    /// The request is malformed: 1.
    MalformedRequest,
    /// The responder failed: 2.
    InternalError,
    /// The responder isn't available now: 3.
    TryLater,
    /// The request has to be signed: 5.
    SigRequired = 5,
    /// The requester isn't allowed to ask: 6.
    Unauthorized,
}
