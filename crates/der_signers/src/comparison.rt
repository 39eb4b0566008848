//! Outcomes of comparisons, and the words for them.
ghost use Rattle.std.specs.Prelude.{◌≡◌, option_map};
ghost use Rattle.der_signers.specs.Comparison.{digest_word, hint_of, type_word, attributes_word, content_word};
ghost use Rattle.der_signers.specs.Comparison.{listed_word};

/// Whether the attribute `messageDigest` of a signer is the digest of the content (RFC 5652, 5.4 and 11.2).
#[derive(Debug, Clone, Copy, PartialEq, Eq)]
pub enum DigestComparison {
    /// It is.
    Same,
    /// It isn't, but it is the digest of the content with CR LF at the end of each line.
    OtherLineEnds,
    /// It is neither, or there isn't exactly one such attribute with exactly one value.
    Different,
    /// There are no signed attributes.
    NoAttributes,
    /// The digest algorithm isn't one that is computed here.
    UnknownAlgorithm,
    /// The content isn't at hand.
    NoContent,
}

impl DigestComparison {
    /// Returns the word for it: `yes`, `no` twice, `absent`, `unknown` or `detached`.
    pub fn word(self) -> &'static str
        ensures { result.now ≡ digest_word self }
    {
        match self {
            DigestComparison::Same => "yes",
            DigestComparison::OtherLineEnds | DigestComparison::Different => "no",
            DigestComparison::NoAttributes => "absent",
            DigestComparison::UnknownAlgorithm => "unknown",
            DigestComparison::NoContent => "detached",
        }
    }

    /// Returns what is said of a digest that agrees with other line ends.
    pub fn hint(self) -> Option<&'static str>
        ensures { option_map (λ hint. hint.now) result ≡ hint_of self }
    {
        match self {
            DigestComparison::OtherLineEnds => {
                Some("messageDigest agrees if lines end with CR LF (--text)")
            }
            _ => None,
        }
    }
}

/// Whether the attribute `contentType` of a signer is the type of the content (RFC 5652, 11.1).
#[derive(Debug, Clone, Copy, PartialEq, Eq)]
pub enum TypeComparison {
    /// It is.
    Same,
    /// It isn't, or there are several such attributes, or it hasn't exactly one value.
    Different,
    /// There is no such attribute.
    Absent,
}

impl TypeComparison {
    /// Returns the word for it: `yes`, `no` or `absent`.
    pub fn word(self) -> &'static str
        ensures { result.now ≡ type_word self }
    {
        match self {
            TypeComparison::Same => "yes",
            TypeComparison::Different => "no",
            TypeComparison::Absent => "absent",
        }
    }
}

/// Whether a signer has the signed attributes that it must have (RFC 5652, 5.3).
#[derive(Debug, Clone, Copy, PartialEq, Eq)]
pub enum RequiredAttributes {
    /// It has signed attributes, and `contentType` and `messageDigest` among them.
    Complete,
    /// It has signed attributes, and `contentType` or `messageDigest` isn't among them.
    Incomplete,
    /// It has no signed attributes, and the type of the content isn't `id-data`.
    Missing,
    /// It has no signed attributes, and needs none, since the type of the content is `id-data`.
    NotNeeded,
}

impl RequiredAttributes {
    /// Returns the word for it: `complete`, `incomplete`, `missing` or `none`.
    pub fn word(self) -> &'static str
        ensures { result.now ≡ attributes_word self }
    {
        match self {
            RequiredAttributes::Complete => "complete",
            RequiredAttributes::Incomplete => "incomplete",
            RequiredAttributes::Missing => "missing",
            RequiredAttributes::NotNeeded => "none",
        }
    }
}

/// Whether a message's own content is the one that was given.
#[derive(Debug, Clone, Copy, PartialEq, Eq)]
pub enum ContentComparison {
    /// It is.
    Same,
    /// It isn't.
    Different,
}

impl ContentComparison {
    /// Returns the word for it: `yes` or `no`.
    pub fn word(self) -> &'static str
        ensures { result.now ≡ content_word self }
    {
        match self {
            ContentComparison::Same => "yes",
            ContentComparison::Different => "no",
        }
    }
}

/// Returns the word for whether a signer's digest algorithm is among those of the message: `yes` or `no`.
pub fn listed_word(is_listed: bool) -> &'static str
    ensures { result.now ≡ listed_word is_listed }
{
    if is_listed { "yes" } else { "no" }
}
