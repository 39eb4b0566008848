//! The lines of an input, one after another.
ghost use Rattle.std.specs.Prelude.{◌≡◌, IfOk, OnOk, IfErr, string_bytes};
ghost use Rattle.std.specs.Io.KnownBytes.{IsAtEnd};
ghost use Rattle.picky_der_core.specs.Reader.{ReportsFault};
ghost use Rattle.picky_der_core.specs.WriterFaults.{IsOnceAtMost};
ghost use Rattle.der_program_base.specs.Run.{Stops};
ghost use Rattle.der_program_base.specs.Text.{WritesAnswers};
ghost use Rattle.der_tool_lib.specs.Answer.{IsAnswerTo};

use crate::output_of;
use der_program_base::{Answers, answer_lines};
use picky_der_core::misc::{ReadExt, WriteExt};
use picky_der_core::{Asn1DerError, Result};
use std::alloc::Global;

// The answers of this tool.
struct Requested;

impl Answers for Requested {
    ghost is_answer = { IsAnswerTo };

    fn output_of(alloc: Global, line: &[u8]) -> Result<String> {
        output_of(alloc, line)
    }
}

/// Writes one line of output for each line of the input, its answer.
///
/// A line ends with the byte 0A. A last line without it counts if it isn't empty. After an error, the output has the
/// whole answers to the lines before the one that failed. If the writer failed, part of the answer to that line may
/// follow.
///
/// `OutOfMemory` if an allocation failed, the error of the reader or the writer if it failed, and `UnsupportedValue` if
/// the input hasn't ended after `u64::MAX` bytes.
pub fn run<R: ReadExt, W: WriteExt>(alloc: Global, input: &mut R, output: &mut W) -> Result<()>
    ensures text { OnOk result (WritesAnswers IsAnswerTo (R.remaining input.old) (W.written output.old)
        (W.written output.new)) }
    ensures at_end { OnOk result (IsAtEnd (R.remaining input.new)) }
    ensures stops { IfErr result (Stops IsAnswerTo W.WriteExt.own (R.remaining input.old)
        (R.remaining input.new) (R.faults input.old) (R.faults input.new) output.old output.new) }
    ensures reads { IfErr result (ReportsFault (R.faults input.old) (R.faults input.new)
        (R.remaining input.new)) }
    ensures writes_counted { IsOnceAtMost (W.faults output.old) (W.faults output.new) }
    ensures no_read_fault { OnOk result (R.faults input.new ≡ R.faults input.old) }
    ensures no_write_fault { OnOk result (W.faults output.new ≡ W.faults output.old) }
    ensures same_references { R.references input.new ≡ R.references input.old }
    ensures continues { W.later output.old output.new }
{
    answer_lines::<Requested, R, W>(alloc, input, output)
}
