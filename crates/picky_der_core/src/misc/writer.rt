//! Writers that write all of a slice, or return an I/O error.
ghost use Rattle.std.specs.Prelude.{◌≡◌, ℕ, suc, List, [], ◌∷◌, length, Option, IfOk, OnOk, IfErr, OnErr};
ghost use Rattle.std.specs.IoError.{error_kind};
ghost use Rattle.std.specs.declared.io.ErrorKind.{ErrorKind};
ghost use Rattle.std.specs.Io.KnownBytes.{Appends};
ghost use Rattle.std.proofs.Common.{◌∙◌, refl};
ghost use Rattle.picky_der_core.specs.Writer.{AppendsTooFew};

use std::io;
use std::io::Write;

/// A writer that writes all of a slice. Contracts count its I/O errors.
pub trait WriteExt: Write {
    // The bytes that were written, as far as they are known.
    ghost written: { Self → Option (List ℕ) };

    // The number of writes that returned an error, or accepted nothing of a slice that wasn't empty.
    ghost faults: { Self → ℕ };

    // The kinds of error that a failed write returns.
    ghost answers: { ErrorKind → Type 0 };

    // The second is the first at a later time: what it borrows and what lies past its bytes is the same.
    ghost later: { Self → Self → Type 0 };

    /// Writes all of the bytes, and returns their number. After an error a beginning of them was written, and at least
    /// one is missing. If the writer accepts no byte, the error is of kind `WriteZero`. Without bytes nothing is
    /// written, and it never fails.
    fn write_exact(&mut self, bytes: &[u8]) -> io::Result<usize>
        ensures count { IfOk result (λ n. n ≡ length bytes.now) }
        ensures appends { OnOk result (Appends (written self.old) (written self.new) bytes.now) }
        ensures beginning { OnErr result
            (AppendsTooFew (written self.old) (written self.new) bytes.now) }
        ensures fault { IfErr result (λ e. (faults self.new ≡ suc (faults self.old))
            × answers (error_kind e)) }
        ensures no_fault { OnOk result (faults self.new ≡ faults self.old) }
        ensures continues { later self.old self.new };

    /// Writes the byte, and returns 1. After an error nothing was written.
    fn write_one(&mut self, byte: u8) -> io::Result<usize>
        ensures count { IfOk result (λ n. n ≡ 1) }
        ensures appends { OnOk result (Appends (written self.old) (written self.new) (byte ∷ [])) }
        ensures beginning { OnErr result (AppendsTooFew (written self.old) (written self.new)
            (byte ∷ [])) }
        ensures fault { IfErr result (λ e. (faults self.new ≡ suc (faults self.old))
            × answers (error_kind e)) }
        ensures no_fault { OnOk result (faults self.new ≡ faults self.old) }
        ensures continues { later self.old self.new }
    {
        self.write_exact(&[byte])
    }

    ghost tells: { (s : Self) → written s ≡ Self.contents s };

    ghost later_refl: { (s : Self) → later s s };

    ghost later_trans: { (s t u : Self) → later s t → later t u → later s u };
}

impl<W: WriteExt> WriteExt for &mut W {
    ghost written = { λ w. W.written w.now };

    ghost faults = { λ w. W.faults w.now };

    ghost answers = { W.answers };

    ghost later = { λ s t. (t.ghost_name ≡ s.ghost_name) × W.later s.now t.now };

    fn write_exact(&mut self, bytes: &[u8]) -> io::Result<usize> {
        WriteExt::write_exact(&mut **self, bytes)
    }

    ghost tells = { λ s. W.tells s.now };

    ghost later_refl = { λ s. (refl, W.later_refl s.now) };

    ghost later_trans = { λ s t u a b. (b.0 ∙ a.0, W.later_trans s.now t.now u.now a.1 b.1) };
}
