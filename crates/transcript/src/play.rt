ghost use Rattle.std.specs.Prelude.{◌≡◌, ◌++◌, string_bytes, OnOk};
ghost use Rattle.transcript.specs.CommandLine.{command_of};
ghost use Rattle.transcript.specs.Lines.{lines_of};
ghost use Rattle.transcript.specs.Playing.{answer_to, told_after, answers_text, list_after};

use crate::answer::Answer;
use crate::command_line::command_of;
use crate::lines::Lines;
use record::command::Unlawful;
use record::record::Record;
use std::alloc::AllocError;

// Takes the command of a line into the record, and says what came of it.
fn answer_to<R: Record>(account: &mut R, line: &[u8]) -> Option<Result<(), Unlawful>>
    ensures value { result ≡ answer_to R.Record.kind.taking (command_of line.now) }
    ensures told { R.Record.told account.new ≡
        told_after R.Record.kind.taking (R.Record.told account.old) (command_of line.now) }
{
    Some(account.take(command_of(line)?))
}

// Takes the commands of all lines into the record, and appends what came of each. The first line has number 2.
pub(crate) fn play_lines<R: Record>(
    account: &mut R,
    out: &mut String,
    lines: Lines<'_>,
) -> Result<(), AllocError>
    ensures text { OnOk result (string_bytes out.new ≡ string_bytes out.old ++
        answers_text R.Record.kind.taking 2 (lines_of lines.entry.0.now)) }
    ensures told { OnOk result (R.Record.told account.new ≡
        list_after R.Record.kind.taking (R.Record.told account.old) (lines_of lines.entry.0.now)) }
{
    for (number, line) in (2_u64..).zip(lines) {
        let answer = Answer(answer_to(account, line));
        writeln!(out, "line {number}: {answer}")?;
    }
    Ok(())
}
