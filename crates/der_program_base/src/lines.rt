//! The lines of an input, one after another, and their answers.
ghost use Rattle.std.specs.Prelude.{◌≡◌, ℕ, List, IfOk, OnOk, IfErr, string_bytes};
ghost use Rattle.std.specs.Io.KnownBytes.{IsAtEnd};
ghost use Rattle.picky_der_core.specs.Reader.{ReportsFault};
ghost use Rattle.picky_der_core.specs.WriterFaults.{IsOnceAtMost};
ghost use Rattle.der_program_base.specs.Run.{AnswersLine, Stops, StopsLine};
ghost use Rattle.der_program_base.specs.Text.{WritesAnswers};

use picky_der_core::misc::{ReadExt, WriteExt};
use picky_der_core::{Asn1DerError, Result};
use std::alloc::Global;

/// What answers lines.
pub trait Answers {
    /// Which texts are answers to a line. Neither has the byte that ends it.
    ghost is_answer: { List ℕ → List ℕ → Type 0 };

    /// Returns the answer to a line. The only error is `OutOfMemory`.
    fn output_of(alloc: Global, line: &[u8]) -> Result<String>
        ensures ok { IfOk result (λ text. is_answer line.now (string_bytes text)) }
        ensures err { IfErr result (λ e. e ≡ Asn1DerError.OutOfMemory) };
}

// Writes the answer to a line, and the byte that ends it.
fn answer_line<A: Answers, W: WriteExt>(alloc: Global, line: &[u8], output: &mut W) -> Result<()>
    ensures ok { OnOk result (AnswersLine A.is_answer line.now (W.written output.old) (W.written output.new)) }
    ensures err { IfErr result (StopsLine A.is_answer W.WriteExt.own line.now output.old output.new) }
    ensures counted { IsOnceAtMost (W.faults output.old) (W.faults output.new) }
    ensures no_fault { OnOk result (W.faults output.new ≡ W.faults output.old) }
    ensures continues { W.later output.old output.new }
{
    let mut answer = A::output_of(alloc, line)?;
    if answer.push('\n').is_err() {
        return Err(Asn1DerError::OutOfMemory);
    }
    output.write_exact(answer.as_bytes())?;
    Ok(())
}

/// Writes one line of output for each line of the input, its answer by `A`.
///
/// A line ends with the byte 0A. A last line without it counts if it isn't empty. After an error, the output has the
/// whole answers to the lines before the one that failed. If the writer failed, part of the answer to that line may
/// follow.
///
/// `OutOfMemory` if an allocation failed, the error of the reader or the writer if it failed, and `UnsupportedValue` if
/// the input hasn't ended after `u64::MAX` bytes.
pub fn answer_lines<A: Answers, R: ReadExt, W: WriteExt>(
    alloc: Global,
    input: &mut R,
    output: &mut W,
) -> Result<()>
    ensures text { OnOk result (WritesAnswers A.is_answer (R.remaining input.old) (W.written output.old)
        (W.written output.new)) }
    ensures at_end { OnOk result (IsAtEnd (R.remaining input.new)) }
    ensures stops { IfErr result (Stops A.is_answer W.WriteExt.own (R.remaining input.old)
        (R.remaining input.new) (R.faults input.old) (R.faults input.new) output.old output.new) }
    ensures reads { IfErr result (ReportsFault (R.faults input.old) (R.faults input.new)
        (R.remaining input.new)) }
    ensures writes_counted { IsOnceAtMost (W.faults output.old) (W.faults output.new) }
    ensures no_read_fault { OnOk result (R.faults input.new ≡ R.faults input.old) }
    ensures no_write_fault { OnOk result (W.faults output.new ≡ W.faults output.old) }
    ensures same_references { R.references input.new ≡ R.references input.old }
    ensures continues { W.later output.old output.new }
{
    let mut line = Vec::new(alloc);
    for _read in 0..u64::MAX {
        let Some(byte) = input.read_next()? else {
            if !line.is_empty() {
                answer_line::<A, W>(alloc, &line, output)?;
            }
            return Ok(());
        };
        if byte == b'\n' {
            answer_line::<A, W>(alloc, &line, output)?;
            line.clear();
        } else if line.push(byte).is_err() {
            return Err(Asn1DerError::OutOfMemory);
        }
    }
    Err(Asn1DerError::UnsupportedValue)
}
