//! Levels, as a serializer opens and ends them.
ghost use Rattle.std.specs.Prelude.{◌≡◌, [], length, OnOk, IfOk, IfErr};
ghost use Rattle.picky_der_core.specs.Encoding.{der};
ghost use Rattle.picky_der_core.specs.OpenWrappers.{under};
ghost use Rattle.picky_der_ser.specs.Headers.{wrappers, HasNumber, CanAllBeOpen};
ghost use Rattle.picky_der_ser.specs.Sequences.{HasOpenLevel};
ghost use Rattle.picky_der_ser.specs.Marks.{writing};
ghost use Rattle.picky_der_ser.specs.Calls.{OpensLevel, AddsMember, RefusesToAdd, EndsLevel, EntersLevel};
ghost use Rattle.picky_der_ser.specs.Calls.{RefusesToEnter};

use super::Serializer;
use crate::levels::{Mark, Place};
use crate::sink::put_headed;
use crate::{Header, Serialize};
use picky_der_core::asn1::Wrapper;
use picky_der_core::misc::WriteExt;
use picky_der_core::{Asn1DerError, Result};

impl<W: WriteExt> Serializer<W> {
    // Opens a level in the open wrapper, and returns its mark.
    #[inline(always)]
    pub(crate) fn open(&mut self, header: Header) -> Mark
        requires { HasNumber header }
        ensures opened { OpensLevel W.WriteExt.own header self.old (writing result self.new) }
        ensures still_open { HasOpenLevel result self.new.failed self.new.inside self.new.pending }
        ensures bare { self.new.around ≡ [] }
    {
        self.levels.open(header)
    }

    // Writes the level that was opened last, in its wrapper, with the members of a set in order. If an allocation for
    // this order fails, nothing of the set is written.
    #[inline(never)]
    fn close_any(&mut self, mark: &Mark) -> Result<usize>
        requires { HasOpenLevel mark.now self.old.failed self.old.inside self.old.pending }
        ensures { EndsLevel W.WriteExt.own (writing mark.now self.old) result self.new }
    {
        if let Some(error) = self.earlier() {
            return Err(error);
        }
        let Ok(()) = self.levels.enclose(mark, self.alloc) else {
            return Err(self.fail(Asn1DerError::OutOfMemory));
        };
        if mark.place == Place::OpenMember {
            let count = self.levels.bytes_from(mark.at).len();
            self.levels.merge();
            return Ok(count);
        }
        let outcome = put_headed(&mut self.sink, &[], self.levels.bytes_from(mark.at));
        self.levels.give_up();
        self.settle(outcome)
    }

    // The same. Mostly it is a short level in another one.
    #[inline(always)]
    pub(crate) fn close(&mut self, mark: &Mark) -> Result<usize>
        requires { HasOpenLevel mark.now self.old.failed self.old.inside self.old.pending }
        ensures { EndsLevel W.WriteExt.own (writing mark.now self.old) result self.new }
    {
        if self.failed.is_none() {
            if let Some(count) = self.levels.merge_short(mark) {
                return Ok(count);
            }
        }
        self.close_any(mark)
    }

    #[inline(never)]
    fn enter_any(&mut self, mark: &mut Mark) -> Result<()>
        requires { HasOpenLevel mark.old self.old.failed self.old.inside self.old.pending }
        ensures ok { OnOk result (EntersLevel W.WriteExt.own mark.old self.old mark.new self.new) }
        ensures err { IfErr result (λ e. RefusesToEnter W.WriteExt.own self.old e self.new) }
    {
        if let Some(error) = self.earlier() {
            return Err(error);
        }
        match self.levels.enter(mark) {
            Ok(()) => Ok(()),
            Err(_) => Err(self.fail(Asn1DerError::OutOfMemory)),
        }
    }

    // From here on another member of the level is written.
    #[inline(always)]
    pub(crate) fn enter(&mut self, mark: &mut Mark) -> Result<()>
        requires { HasOpenLevel mark.old self.old.failed self.old.inside self.old.pending }
        ensures ok { OnOk result (EntersLevel W.WriteExt.own mark.old self.old mark.new self.new) }
        ensures err { IfErr result (λ e. RefusesToEnter W.WriteExt.own self.old e self.new) }
    {
        if self.failed.is_none() && self.levels.enter_ready(mark) {
            return Ok(());
        }
        self.enter_any(mark)
    }

    // Writes the value in this wrapper, if there is one, as a member of the level. Returns how many bytes were written.
    #[inline(always)]
    pub(crate) fn write_member_in<T: Serialize>(
        &mut self,
        mark: &mut Mark,
        around: Option<Wrapper>,
        value: &T,
    ) -> Result<usize>
        requires still_open { HasOpenLevel mark.old self.old.failed self.old.inside self.old.pending }
        requires numbers { CanAllBeOpen (wrappers around) }
        ensures added { OnOk result (AddsMember W.WriteExt.own (under (wrappers around) (T.meaning value.now))
            (writing mark.old self.old) (writing mark.new self.new)) }
        ensures count { IfOk result (λ n. n ≡ length (der (under (wrappers around) (T.meaning value.now)))) }
        ensures still_open { HasOpenLevel mark.new self.new.failed self.new.inside self.new.pending }
        ensures bare { OnOk result (self.new.around ≡ []) }
        ensures err { IfErr result (λ e. RefusesToAdd W.WriteExt.own (under (wrappers around) (T.meaning value.now))
            (writing mark.old self.old) e (writing mark.new self.new)) }
    {
        self.enter(mark)?;
        if let Some(wrapper) = around {
            self.levels.wrap(wrapper);
        }
        let count = value.serialize(self)?;
        self.levels.leave(mark);
        Ok(count)
    }

    // Writes the value as a member of the level.
    #[inline(always)]
    pub(crate) fn write_member<T: Serialize>(&mut self, mark: &mut Mark, value: &T) -> Result<()>
        requires { HasOpenLevel mark.old self.old.failed self.old.inside self.old.pending }
        ensures added { OnOk result (AddsMember W.WriteExt.own (T.meaning value.now)
            (writing mark.old self.old) (writing mark.new self.new)) }
        ensures still_open { HasOpenLevel mark.new self.new.failed self.new.inside self.new.pending }
        ensures bare { OnOk result (self.new.around ≡ []) }
        ensures err { IfErr result (λ e. RefusesToAdd W.WriteExt.own (T.meaning value.now)
            (writing mark.old self.old) e (writing mark.new self.new)) }
    {
        self.write_member_in(mark, None, value)?;
        Ok(())
    }
}
