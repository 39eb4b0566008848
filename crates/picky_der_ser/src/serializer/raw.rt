//! Bytes that are written as they are.
ghost use Rattle.std.specs.Prelude.{◌≡◌, [], None};
ghost use Rattle.picky_der_core.specs.Tree.{Tree};
ghost use Rattle.picky_der_ser.specs.Calls.{WritesPlain};

use super::Serializer;
use crate::Header;
use crate::sink::put_headed;
use picky_der_core::Result;
use picky_der_core::misc::WriteExt;

impl<W: WriteExt> Serializer<W> {
    // Writes bytes to the sink.
    fn put_raw(&mut self, bytes: &[u8]) -> Result<usize>
        requires had_not_failed { self.old.failed ≡ None }
        requires outside { self.old.inside ≡ None }
        requires bare { self.old.around ≡ [] }
        ensures { WritesPlain W.WriteExt.own (Tree.raw bytes.now) self.old result self.new }
    {
        self.levels.give_up();
        let outcome = put_headed(&mut self.sink, &[], bytes);
        self.settle(outcome)
    }

    // Writes bytes as they are, in a level or to the sink.
    #[cold]
    #[inline(never)]
    fn write_any_raw(&mut self, bytes: &[u8]) -> Result<usize>
        ensures { WritesPlain W.WriteExt.own (Tree.raw bytes.now) self.old result self.new }
    {
        if let Some(error) = self.earlier() {
            return Err(error);
        }
        if self.levels.is_inside() {
            return self.append_content(Header::Raw, bytes);
        }
        if self.levels.is_bare() {
            return self.put_raw(bytes);
        }
        self.put_wrapped(Header::Raw, bytes)
    }

    /// Writes bytes as they are, in the open wrappers. They aren't checked: what isn't exactly one element is written,
    /// but can't be read back. Directly under an implicit tag all of them are kept.
    pub fn serialize_raw(&mut self, bytes: &[u8]) -> Result<usize>
        ensures { WritesPlain W.WriteExt.own (Tree.raw bytes.now) self.old result self.new }
    {
        if self.failed.is_none() && self.levels.append_few(bytes) {
            return Ok(bytes.len());
        }
        self.write_any_raw(bytes)
    }
}
