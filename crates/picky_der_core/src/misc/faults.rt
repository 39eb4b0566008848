//! The I/O errors of a reader or a writer, which only clauses read.
ghost use Rattle.std.specs.Prelude.{◌≡◌, [], ◌∷◌};
ghost use Rattle.picky_der_core.specs.Faults.{faults_in};

use std::io::ErrorKind;
use std::snapshot::Snapshot;

/// The I/O errors of a reader or a writer so far. They use no memory, and there may be any number of them.
#[derive(Drop)]
pub enum Faults<T> {
    /// None yet.
    Fresh,

    /// One more than before: its kind, and the reader or writer after it.
    More(ErrorKind, Snapshot<T>, Snapshot<Faults<T>>),
}

impl<T> Faults<T> {
    /// No I/O error yet.
    pub fn new() -> Faults<T>
        ensures { faults_in result ≡ [] }
    {
        Faults::Fresh
    }

    /// Adds an I/O error of this kind, and the state of the reader or writer after it.
    pub fn raise(&mut self, kind: ErrorKind, device: &T)
        ensures { faults_in self.new
            ≡ record { kind = kind; device = device.now } ∷ faults_in self.old }
    {
        let before = Snapshot::of(self);
        *self = Faults::More(kind, Snapshot::of(device), before);
    }
}
