//! The ends of the elements that are open.
ghost use Rattle.std.specs.Prelude.{◌≡◌, ◌≤◌, [], ◌∷◌, length, take, reverse, OnOk};
ghost use Rattle.der_show.specs.Ends.{innermost, without_reached};

use std::alloc::{AllocError, Global};
use std::marker::Model;

// The ends of the constructed elements around an offset, the innermost first.
#[derive(Drop)]
pub(crate) struct Ends {
    // The ends; the innermost one is the last.
    ends: Vec<usize>,
}

impl Model for Ends {
    ghost use Rattle.std.specs.Prelude.{ℕ, List, reverse};

    ghost Value = { List ℕ };

    ghost view = { λ it. reverse it.ends.items };
}

impl Ends {
    pub(crate) fn new(alloc: Global) -> Ends
        ensures { result ≡ [] }
    {
        Ends {
            ends: Vec::new(alloc),
        }
    }

    // How many elements are open.
    pub(crate) fn depth(&self) -> usize
        ensures { result ≡ length self.now }
    {
        self.ends.len()
    }

    // The end of the innermost element, or the end of all bytes if none is open.
    pub(crate) fn innermost(&self, len: usize) -> usize
        ensures { result ≡ innermost len self.now }
    {
        match self.ends.last() {
            Some(end) => *end,
            None => len,
        }
    }

    // Opens an element that ends there.
    pub(crate) fn open(&mut self, end: usize) -> Result<(), AllocError>
        ensures { OnOk result (self.new ≡ end ∷ self.old) }
    {
        self.ends.push(end)?;
        Ok(())
    }

    // Closes the innermost elements, as long as they end at this offset.
    pub(crate) fn close(&mut self, offset: usize)
        ensures { self.new ≡ without_reached offset self.old }
    {
        let depth = depth_at(&self.ends, offset);
        self.ends.truncate(depth);
    }
}

// How many ends remain when the last ones that are at this offset are removed.
pub(crate) fn depth_at(ends: &[usize], offset: usize) -> usize
    ensures kept { reverse (take result ends.now) ≡ without_reached offset (reverse ends.now) }
    ensures within { result ≤ length ends.now }
{
    let mut depth = ends.len();
    while depth > 0 && ends[depth - 1] == offset {
        depth -= 1;
    }
    depth
}
