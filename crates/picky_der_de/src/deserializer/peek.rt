//! The next tag, looked at and left.
ghost use Rattle.std.specs.Prelude.{◌≡◌, None, IfNone, IfSome, IfOk, IfErr, OnErr};
ghost use Rattle.picky_der_de.specs.Steps.{IsJudged};
ghost use Rattle.picky_der_de.specs.LookAhead.{HasEnded, IdentifiesChoice, RefusesChoice, Identifies};
ghost use Rattle.picky_der_de.specs.LookAhead.{RefusesIdentifier};

use super::Deserializer;
use picky_der_core::asn1::Tag;
use picky_der_core::misc::ReadExt;
use picky_der_core::{Asn1DerError, Result};

impl<R: ReadExt> Deserializer<R> {
    // The next byte before the innermost end, without consuming it, or `None` if the input ended here, before that end.
    fn peek_next(&mut self) -> Result<Option<Tag>>
        requires had_not_failed { self.old.failed ≡ None }
        requires whole { self.old.implicit_tag ≡ None }
        ensures tag { IfOk result (λ next. IfSome next (IdentifiesChoice self.old self.new)) }
        ensures ended { IfOk result (λ next. IfNone next (HasEnded self.old self.new)) }
        ensures err { IfErr result (RefusesChoice self.old self.new) }
        ensures at_end { IfErr result (λ e. IsJudged self.old self.new e → self.old.until_end ≡ 0) }
    {
        if self.until_end == 0 {
            let error = self.end.missing();
            return Err(self.fail(error));
        }
        match self.reader.peek_next() {
            Ok(Some(byte)) => Ok(Some(Tag::from(byte))),
            Ok(None) => Ok(None),
            Err(error) => Err(self.fault(error)),
        }
    }

    // The next byte before the innermost end, without consuming it.
    fn peek_tag(&mut self) -> Result<Tag>
        requires had_not_failed { self.old.failed ≡ None }
        requires whole { self.old.implicit_tag ≡ None }
        ensures ok { IfOk result (IdentifiesChoice self.old self.new) }
        ensures err { IfErr result (RefusesChoice self.old self.new) }
    {
        match self.peek_next() {
            Ok(Some(tag)) => Ok(tag),
            Ok(None) => Err(self.fail(Asn1DerError::TruncatedData)),
            Err(error) => Err(error),
        }
    }

    /// The next tag, without consuming it. Directly under an implicit tag this tag was consumed already, and is
    /// returned.
    ///
    /// If no byte is left, the error is `InvalidData` at a hard end, and else `TruncatedData`. Any other error is the
    /// reader's I/O error. Nothing is allocated.
    pub fn deserialize_identifier(&mut self) -> Result<Tag>
        ensures ok { IfOk result (Identifies self.old self.new) }
        ensures err { IfErr result (RefusesIdentifier self.old self.new) }
        ensures last { OnErr result (self.new.last ≡ self.old.last) }
    {
        if let Some(error) = self.earlier() {
            return Err(error);
        }
        match self.implicit_tag {
            Some(tag) => Ok(Tag::from(tag)),
            None => self.peek_tag(),
        }
    }

    // The next tag, without consuming it, or `None` if the input ended here, before the innermost end. Directly under
    // an implicit tag this tag was consumed already, and is returned.
    //
    // At the innermost end the error is `InvalidData` if it is a hard one, and else `TruncatedData`. Any other error is
    // the reader's I/O error. Nothing is allocated.
    pub(crate) fn identify_next(&mut self) -> Result<Option<Tag>>
        ensures tag { IfOk result (λ next. IfSome next (Identifies self.old self.new)) }
        ensures ended { IfOk result (λ next. IfNone next (HasEnded self.old self.new)) }
        ensures err { IfErr result (RefusesIdentifier self.old self.new) }
        ensures at_end { IfErr result (λ e. IsJudged self.old self.new e → self.old.until_end ≡ 0) }
    {
        if let Some(error) = self.earlier() {
            return Err(error);
        }
        match self.implicit_tag {
            Some(tag) => Ok(Some(Tag::from(tag))),
            None => self.peek_next(),
        }
    }

    /// The tag of the next alternative of a choice, without consuming it. The names aren't used.
    ///
    /// `InvalidData` directly under an implicit tag, where no byte distinguishes the alternatives: nothing is consumed
    /// then. If no byte is left, the error is `InvalidData` at a hard end, and else `TruncatedData`. Any other error is
    /// the reader's I/O error. Nothing is allocated.
    pub fn deserialize_enum(
        &mut self,
        _name: &'static str,
        _variants: &'static [&'static str],
    ) -> Result<Tag>
        ensures ok { IfOk result (IdentifiesChoice self.old self.new) }
        ensures err { IfErr result (RefusesChoice self.old self.new) }
    {
        if let Some(error) = self.earlier() {
            return Err(error);
        }
        match self.implicit_tag {
            Some(_) => Err(self.fail(Asn1DerError::InvalidData)),
            None => self.peek_tag(),
        }
    }
}
