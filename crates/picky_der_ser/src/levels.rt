//! What a serializer holds in memory of the levels that are open, and where its next value goes.
ghost use Rattle.std.specs.Prelude.{◌≡◌, ◌≢◌, ◌+◌, ◌≤◌, [], ◌∷◌, ◌++◌, true, false, length, take, None, Some, IfSome};
ghost use Rattle.std.specs.Prelude.{IfNone, IfOk, OnOk, drop};
ghost use Rattle.picky_der_core.specs.Primitive.{Primitive};
ghost use Rattle.picky_der_core.specs.OpenWrappers.{under};
ghost use Rattle.picky_der_core.specs.Encoding.{der};
ghost use Rattle.picky_der_core.specs.Tree.{Tree};
ghost use Rattle.picky_der_ser.specs.Headers.{tree_of, wrappers, own_tag, HasNumber, CanBeOpen, CanAllBeOpen};
ghost use Rattle.picky_der_ser.specs.State.{Held, extended, final_content};
ghost use Rattle.picky_der_ser.specs.Marks.{level_at, outside, IsOpen, IsEntered, Opens, Enters, enclosed, Gains};

use crate::Header;
use crate::header::{own_tag, push_few, push_headers, push_short, put_headers, room_of};
use crate::order::{arrange, begin_member};
use picky_der_core::asn1::{Tag, Wrapper};
use std::alloc::{AllocError, Global};
use std::marker::Model;

// How many bytes are allocated first: at once by `to_vec`, and else when the first member of an outermost level comes.
// With so many the vector grows once for most certificates, and never for a public key of RSA with 2048 bits.
pub(crate) const FIRST_ROOM: usize = 1_000;

// How many bytes are allocated in addition to a content: the bytes of its own headers, and the bytes by which the
// headers around it grow.
const SPARE_ROOM: usize = 128;

// The bytes in a room before its headers come.
const BLANK: [u8; 5] = [0; 5];

// A level: where the room for its headers begins, and where its content.
#[derive(Clone, Copy)]
pub(crate) struct Mark {
    pub(crate) at: usize,
    pub(crate) start: usize,
    // How many seams are of levels around it.
    pub(crate) first_seam: usize,
    pub(crate) header: Header,
    pub(crate) around: Option<Wrapper>,
    // What it is in.
    pub(crate) place: Place,
    // Whether a member can be written at once: the room is there, and no seam has to be kept.
    pub(crate) is_ready: bool,
    // Whether it is in another level and in no wrapper, with a room of two bytes of which the first is its tag.
    pub(crate) has_tag: bool,
}

// Where the next value goes.
#[derive(Clone, Copy, PartialEq, Eq)]
pub(crate) enum Place {
    // To the bytes that are held: it is a member of a level, or a part of one.
    Member,

    // The same in a wrapper.
    WrappedMember,

    // In place of a level that was opened as such a member and hasn't ended.
    OpenMember,

    // To the sink.
    Sink,

    // The same in a wrapper.
    WrappedSink,

    // In place of a level that was opened there and hasn't ended.
    OpenSink,
}

// The bytes of all levels, one after the other, the innermost last. The seams of a set say how many bytes of its
// content are before each member but the first.
#[derive(Drop)]
pub(crate) struct Levels {
    bytes: Vec<u8>,
    seams: Vec<usize>,
    place: Place,
    // The open wrapper, if there is one.
    wrapper: Wrapper,
    // How many bytes and seams stay if the open level is dropped.
    kept: usize,
    kept_seams: usize,
}

impl Model for Levels {
    ghost use Rattle.picky_der_ser.specs.Headers.{CanAllBeOpen};
    ghost use Rattle.picky_der_ser.specs.State.{Stack, stack_code};
    ghost use Rattle.picky_der_ser.specs.Marks.{held_of, inside_at, pending_at, around_at};

    ghost Value = { Stack };

    ghost coded = { stack_code };

    ghost view = { λ s. record {
      inside = inside_at s.place s.kept s.kept_seams (held_of s.bytes.items s.seams.items);
      pending = pending_at s.place (held_of s.bytes.items s.seams.items);
      around = around_at s.place s.wrapper;
    } };

    ghost invariant = { λ s. CanAllBeOpen (around_at s.place s.wrapper) };
}

impl Levels {
    pub(crate) fn new(alloc: Global) -> Levels
        ensures { result ≡ record { inside = None; pending = None; around = [] } }
    {
        Levels {
            bytes: Vec::new(alloc),
            seams: Vec::new(alloc),
            place: Place::Sink,
            wrapper: Wrapper::OctetContainer,
            kept: 0,
            kept_seams: 0,
        }
    }

    // Levels within one that is around all, in this vector, which has no bytes. Inlined, so that they are made in their
    // final place.
    #[inline(always)]
    pub(crate) fn new_in_root(alloc: Global, bytes: Vec<u8>) -> Levels
        requires { bytes.items ≡ [] }
        ensures { result ≡ record {
          inside = Some (record { bytes = []; seams = [] });
          pending = None;
          around = [];
        } }
    {
        Levels {
            bytes,
            seams: Vec::new(alloc),
            place: Place::Member,
            wrapper: Wrapper::OctetContainer,
            kept: 0,
            kept_seams: 0,
        }
    }

    // What is held before the next value. Inlined, so that the levels aren't copied first.
    #[inline(always)]
    pub(crate) fn into_bytes(mut self) -> Vec<u8>
        ensures { (h : Held) → self.inside ≡ Some h → result.items ≡ h.bytes }
    {
        self.give_up();
        let Levels {
            bytes,
            seams: _,
            place: _,
            wrapper: _,
            kept: _,
            kept_seams: _,
        } = self;
        bytes
    }

    // Whether a member of some level is being written.
    pub(crate) fn is_inside(&self) -> bool
        ensures no { result ≡ false → self.now.inside ≡ None }
        ensures yes { result ≡ true → self.now.inside ≢ None }
    {
        matches!(
            self.place,
            Place::Member | Place::WrappedMember | Place::OpenMember
        )
    }

    // Drops the level that was opened last and hasn't ended. When a value is written there mostly is none.
    #[inline(always)]
    pub(crate) fn give_up(&mut self)
        ensures { self.new ≡ record self.old { pending = None } }
    {
        if matches!(self.place, Place::OpenMember | Place::OpenSink) {
            self.drop_level();
        }
    }

    #[cold]
    #[inline(never)]
    fn drop_level(&mut self)
        requires { self.old.pending ≢ None }
        ensures { self.new ≡ record self.old { pending = None } }
    {
        self.bytes.truncate(self.kept);
        self.seams.truncate(self.kept_seams);
        self.place = if self.place == Place::OpenMember {
            Place::Member
        } else {
            Place::Sink
        };
    }

    // The open wrapper.
    #[inline(always)]
    pub(crate) fn around(&self) -> Option<Wrapper>
        ensures around { wrappers result ≡ self.now.around }
        ensures numbers { CanAllBeOpen (wrappers result) }
    {
        match self.place {
            Place::WrappedMember | Place::WrappedSink => Some(self.wrapper),
            _ => None,
        }
    }

    // Opens a level in the open wrapper. It replaces one that was opened and hasn't ended.
    #[inline(always)]
    pub(crate) fn open(&mut self, header: Header) -> Mark
        requires { HasNumber header }
        ensures { Opens header self.old result self.new }
    {
        let mut mark = Mark {
            at: 0,
            start: 0,
            first_seam: 0,
            header,
            around: None,
            place: Place::OpenMember,
            is_ready: false,
            has_tag: false,
        };
        if !self.open_short(&mut mark) {
            self.open_any(&mut mark);
        }
        mark
    }

    // The same in another level and in no wrapper, where there is room for a short header. Else nothing is done.
    #[inline(always)]
    fn open_short(&mut self, mark: &mut Mark) -> bool
        requires { HasNumber mark.old.header }
        ensures yes { result ≡ true → Opens mark.old.header self.old mark.new self.new }
        ensures no { result ≡ false → (self.new ≡ self.old) × (mark.new ≡ mark.old) }
    {
        let header = mark.header;
        let own = own_tag(None, header);
        let Some(tag) = own else {
            return false;
        };
        let Place::Member = self.place else {
            return false;
        };
        let at = self.bytes.len();
        if self.bytes.capacity() - at < 2 {
            return false;
        }
        let first_seam = self.seams.len();
        // There is room, so this doesn't fail.
        let has_room = self.bytes.extend_from_slice(&[tag.inner(), 0]).is_ok();
        self.place = Place::OpenMember;
        self.kept = at;
        self.kept_seams = first_seam;
        *mark = Mark {
            at,
            start: self.bytes.len(),
            first_seam,
            header,
            around: None,
            place: Place::OpenMember,
            is_ready: has_room && !header.is_set(),
            has_tag: has_room,
        };
        true
    }

    // The same in any place.
    #[inline(never)]
    fn open_any(&mut self, mark: &mut Mark)
        requires { HasNumber mark.old.header }
        ensures { Opens mark.old.header self.old mark.new self.new }
    {
        self.give_up();
        let header = mark.header;
        let around = self.around();
        let at = self.bytes.len();
        let first_seam = self.seams.len();
        let has_room = self.bytes.capacity() - at >= BLANK.len();
        if has_room {
            let _ = self
                .bytes
                .extend_from_slice(&BLANK[..room_of(around, header)]);
        }
        let place = if self.is_inside() {
            Place::OpenMember
        } else {
            Place::OpenSink
        };
        self.place = place;
        self.kept = at;
        self.kept_seams = first_seam;
        *mark = Mark {
            at,
            start: self.bytes.len(),
            first_seam,
            header,
            around,
            place,
            is_ready: has_room && !header.is_set(),
            has_tag: false,
        };
    }

    // From here on a member of the level that was opened last is written. Returns the level's mark.
    #[inline(always)]
    pub(crate) fn enter(&mut self, mark: &mut Mark) -> Result<(), AllocError>
        requires { IsOpen mark.old self.old.inside self.old.pending }
        ensures { OnOk result (Enters mark.old self.old mark.new self.new) }
    {
        if self.bytes.len() == mark.at {
            if self.bytes.is_empty() {
                self.bytes.reserve(FIRST_ROOM)?;
            }
            self.bytes
                .extend_from_slice(&BLANK[..room_of(mark.around, mark.header)])?;
            mark.start = self.bytes.len();
            mark.is_ready = !mark.header.is_set();
        }
        begin_member(&mut self.seams, mark.header, self.bytes.len() - mark.start)?;
        self.place = Place::Member;
        Ok(())
    }

    // The same if nothing has to be prepared, as nearly always. Else nothing is done.
    #[inline(always)]
    pub(crate) fn enter_ready(&mut self, mark: &Mark) -> bool
        requires { IsOpen mark.now self.old.inside self.old.pending }
        ensures yes { result ≡ true → Enters mark.now self.old mark.now self.new }
        ensures no { result ≡ false → self.new ≡ self.old }
    {
        if mark.is_ready {
            self.place = Place::Member;
        }
        mark.is_ready
    }

    // The member of the level with this mark has been written.
    #[inline(always)]
    pub(crate) fn leave(&mut self, mark: &Mark)
        requires entered { IsEntered mark.now self.old.inside }
        requires bare { self.old.around ≡ [] }
        ensures { (h : Held) → self.old.inside ≡ Some h
            → self.new ≡ record { inside = outside mark.now h; pending = Some h; around = [] } }
    {
        if self.place != Place::Member {
            self.drop_level();
        }
        self.place = mark.place;
        self.kept = mark.at;
        self.kept_seams = mark.first_seam;
    }

    // Adds an element with a length of one byte to the level of which a member is being written, if no wrapper is open,
    // no level was opened in it, and there is room for the element. Else nothing is done.
    #[inline(always)]
    pub(crate) fn append_short(&mut self, tag: Tag, content: &[u8]) -> bool
        ensures count { result ≡ true → length
            (der (Tree.primitive (Primitive.bytes tag content.now))) ≡ 2 + length content.now }
        ensures yes { result ≡ true
            → Gains (der (Tree.primitive (Primitive.bytes tag content.now))) self.old self.new }
        ensures no { result ≡ false → self.new ≡ self.old }
    {
        let len = content.len();
        let room = self.bytes.capacity() - self.bytes.len();
        if self.place != Place::Member || len >= 0x80 || room < 2 + len {
            return false;
        }
        push_short(&mut self.bytes, tag, content);
        true
    }

    // Adds bytes as they are to the level of which a member is being written, if no wrapper is open, no level was
    // opened in it, and there is room for them. Else nothing is done.
    #[inline(always)]
    pub(crate) fn append_few(&mut self, bytes: &[u8]) -> bool
        ensures yes { result ≡ true → Gains bytes.now self.old self.new }
        ensures no { result ≡ false → self.new ≡ self.old }
    {
        let room = self.bytes.capacity() - self.bytes.len();
        if self.place != Place::Member || room < bytes.len() {
            return false;
        }
        push_few(&mut self.bytes, bytes);
        true
    }

    // Adds the encoding of a content under this header, in the open wrapper, to what is held. Returns the length of the
    // encoding.
    pub(crate) fn append(&mut self, header: Header, content: &[u8]) -> Result<usize, AllocError>
        requires { HasNumber header }
        ensures numbers { CanAllBeOpen self.old.around }
        ensures count { IfOk result (λ n. n ≡ length
            (der (under self.old.around (tree_of header content.now)))) }
        ensures ok { OnOk result ((h : Held) → self.old.inside ≡ Some h → self.new ≡ record self.old {
          inside = Some (extended h (der (under self.old.around (tree_of header content.now))));
          pending = None;
        }) }
    {
        self.give_up();
        let around = self.around();
        let at = self.bytes.len();
        self.bytes.reserve(SPARE_ROOM + content.len())?;
        push_headers(&mut self.bytes, around, header, content.len())?;
        self.bytes.extend_from_slice(content)?;
        Ok(self.bytes.len() - at)
    }

    // Whether no wrapper is open.
    pub(crate) fn is_bare(&self) -> bool
        ensures yes { result ≡ true → self.now.around ≡ [] }
        ensures no { result ≡ false → self.now.around ≢ [] }
    {
        !matches!(self.place, Place::WrappedMember | Place::WrappedSink)
    }

    // Opens a wrapper.
    pub(crate) fn wrap(&mut self, wrapper: Wrapper)
        requires number { CanBeOpen wrapper }
        requires bare { self.old.around ≡ [] }
        ensures { self.new ≡ record { inside = self.old.inside; pending = None; around = wrapper ∷ [] } }
    {
        self.give_up();
        self.wrapper = wrapper;
        self.place = if self.place == Place::Member {
            Place::WrappedMember
        } else {
            Place::WrappedSink
        };
    }

    // Closes the open wrapper.
    #[inline(always)]
    pub(crate) fn close_wrapper(&mut self)
        ensures closed { self.new ≡ record self.old { around = [] } }
        ensures numbers { CanAllBeOpen self.old.around }
    {
        match self.place {
            Place::WrappedMember => self.place = Place::Member,
            Place::WrappedSink => self.place = Place::Sink,
            _ => {}
        }
    }

    // Puts the members of the level that was opened last in ascending order, if it is a set, and the headers before the
    // content.
    pub(crate) fn enclose(&mut self, mark: &Mark, alloc: Global) -> Result<(), AllocError>
        requires { IsOpen mark.now self.old.inside self.old.pending }
        ensures { OnOk result ((h : Held) → self.old.pending ≡ Some h → self.new ≡ record {
          inside = self.old.inside;
          pending = Some (enclosed mark.now h);
          around = [];
        }) }
    {
        if mark.first_seam < self.seams.len() {
            let seams = &self.seams[mark.first_seam..];
            arrange(&mut self.bytes, mark.start, seams, alloc)?;
            self.seams.truncate(mark.first_seam);
        }
        self.kept = mark.at;
        self.kept_seams = mark.first_seam;
        put_headers(
            &mut self.bytes,
            mark.at,
            mark.start,
            mark.around,
            mark.header,
        )
    }

    // Adds the level that was opened last, with its headers, to what is held around it.
    pub(crate) fn merge(&mut self)
        requires inside { self.old.inside ≢ None }
        requires opened { self.old.pending ≢ None }
        ensures { self.new ≡ record { inside = self.old.pending; pending = None; around = [] } }
    {
        self.place = Place::Member;
    }

    // Ends the level that was opened last as `enclose` and `merge` do. This is for a level in another one, without
    // seams or a wrapper, whose header fits the two bytes before it, as most do. Else it does nothing and returns
    // `None`.
    #[inline(always)]
    pub(crate) fn merge_short(&mut self, mark: &Mark) -> Option<usize>
        requires { IsOpen mark.now self.old.inside self.old.pending }
        ensures inside { IfSome result (λ n. self.old.inside ≢ None) }
        ensures count { IfSome result (λ n. (h : Held) → self.old.pending ≡ Some h → n ≡ length
            (der (under (wrappers mark.now.around) (tree_of mark.now.header (final_content (level_at mark.now h)))))) }
        ensures some { IfSome result (λ n. (h : Held) → self.old.pending ≡ Some h
            → self.new ≡ record { inside = Some (enclosed mark.now h); pending = None; around = [] }) }
        ensures none { IfNone result (self.new ≡ self.old) }
    {
        let len = self.bytes.len() - mark.start;
        if !mark.has_tag || mark.first_seam < self.seams.len() || len >= 0x80 {
            return None;
        }
        self.bytes[mark.at + 1] = len as u8;
        self.place = Place::Member;
        Some(2 + len)
    }

    // What is held from there on.
    pub(crate) fn bytes_from(&self, at: usize) -> &[u8]
        requires within { IfSome self.now.pending (λ h. at ≤ length h.bytes) }
        requires opened { self.now.pending ≢ None }
        ensures { IfSome self.now.pending (λ h. result.now ≡ drop at h.bytes) }
    {
        &self.bytes[at..]
    }
}
