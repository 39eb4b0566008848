//! What is found of a message with signed data.
ghost use Rattle.std.specs.Prelude.{◌≡◌, IfOk, IfErr, length, option_map};
ghost use Rattle.std.specs.Option.{option_copied};
ghost use Rattle.der_signers.specs.LineEnds.{canonical};
ghost use Rattle.der_signers.specs.Message.{content_comparison, same_contents, members_count, own_content};
ghost use Rattle.der_signers.specs.Message.{given_content, IsMessageOf};
ghost use Rattle.der_signers.specs.Outcome.{IsSignedData};
ghost use Rattle.der_signers.specs.Report.{AreWritable};

use crate::comparison::ContentComparison;
use crate::line_ends::{LineEnds, with_cr_lf};
use crate::report::{Report, reports_of};
use crate::request::Request;
use der_cms::SignedData;
use picky_asn1_der::{Asn1DerError, Result};
use std::alloc::{AllocError, Global};
use std::result;

/// What is found of a message with signed data.
#[derive(Debug, Drop)]
pub struct Message {
    /// How many certificates it has.
    pub certificates: usize,
    /// How many lists of revoked certificates it has.
    pub lists: usize,
    /// Whether its own content is the one that was given, or `None` if it has none or none was given.
    pub content: Option<ContentComparison>,
    /// The report on each of its signers, in their order.
    pub reports: Vec<Report>,
}

// What is found of the signed data that these bytes are.
pub fn read_message(
    alloc: Global,
    bytes: &[u8],
    signed_data: &SignedData,
    request: &Request,
) -> Result<Message>
    requires { IsSignedData bytes.now signed_data.now }
    ensures ok { IfOk result (IsMessageOf signed_data.now (own_content request.now signed_data.now)
        (given_content request.now)) }
    ensures err { IfErr result (λ e. e ≡ Asn1DerError.OutOfMemory) }
{
    let own = match &signed_data.encap_content_info.e_content {
        Some(content) => Some(content.0.0.as_slice()),
        None => None,
    };
    let given = match &request.content {
        Some(content) => Some(content.as_slice()),
        None => None,
    };
    match request.line_ends {
        LineEnds::AsTheyAre => message_of(alloc, signed_data, own, given),
        LineEnds::CrLf => message_of_text(alloc, signed_data, own, given),
    }
}

// What is found, if the lines of each content end with CR LF.
fn message_of_text(
    alloc: Global,
    signed_data: &SignedData,
    own: Option<&[u8]>,
    given: Option<&[u8]>,
) -> Result<Message>
    requires { AreWritable signed_data.now }
    ensures ok { IfOk result (IsMessageOf signed_data.now
        (option_map canonical (option_copied own.entry))
        (option_map canonical (option_copied given.entry))) }
    ensures err { IfErr result (λ e. e ≡ Asn1DerError.OutOfMemory) }
{
    let own = text_of(alloc, own)?;
    let given = text_of(alloc, given)?;
    let own = match &own {
        Some(content) => Some(content.as_slice()),
        None => None,
    };
    let given = match &given {
        Some(content) => Some(content.as_slice()),
        None => None,
    };
    message_of(alloc, signed_data, own, given)
}

// A content with CR LF at the end of each line.
fn text_of(alloc: Global, content: Option<&[u8]>) -> result::Result<Option<Vec<u8>>, AllocError>
    ensures { IfOk result (λ text. option_map (λ t. t.items) text
        ≡ option_map canonical (option_copied content.entry)) }
{
    match content {
        Some(content) => Ok(Some(with_cr_lf(alloc, content)?)),
        None => Ok(None),
    }
}

// What is found, by the message's own content and the one that was given.
fn message_of(
    alloc: Global,
    signed_data: &SignedData,
    own: Option<&[u8]>,
    given: Option<&[u8]>,
) -> Result<Message>
    requires { AreWritable signed_data.now }
    ensures ok { IfOk result (IsMessageOf signed_data.now (option_copied own.entry)
        (option_copied given.entry)) }
    ensures err { IfErr result (λ e. e ≡ Asn1DerError.OutOfMemory) }
{
    let content = compare_contents(own, given);
    let at_hand = match own {
        Some(own) => Some(own),
        None => given,
    };
    let reports = reports_of(alloc, signed_data, at_hand)?;
    Ok(Message {
        certificates: certificates_in(signed_data),
        lists: lists_in(signed_data),
        content,
        reports,
    })
}

// Whether both contents are there, and are the same.
fn compare_contents(own: Option<&[u8]>, given: Option<&[u8]>) -> Option<ContentComparison>
    ensures { result ≡ content_comparison (option_copied own.entry) (option_copied given.entry) }
{
    match (own, given) {
        (Some(own), Some(given)) => Some(same_contents(own, given)),
        _ => None,
    }
}

// Whether both contents are the same.
fn same_contents(own: &[u8], given: &[u8]) -> ContentComparison
    ensures { result ≡ same_contents own.now given.now }
{
    if own == given {
        ContentComparison::Same
    } else {
        ContentComparison::Different
    }
}

// How many certificates a message has.
fn certificates_in(signed_data: &SignedData) -> usize
    ensures { result
        ≡ members_count (option_map (λ set. length set.0.0.items) signed_data.now.certificates) }
{
    match &signed_data.certificates {
        Some(set) => set.0.0.len(),
        None => 0,
    }
}

// How many lists of revoked certificates a message has.
fn lists_in(signed_data: &SignedData) -> usize
    ensures { result ≡ members_count (option_map (λ set. length set.0.0.items) signed_data.now.crls) }
{
    match &signed_data.crls {
        Some(set) => set.0.0.len(),
        None => 0,
    }
}
