// The lines of a trace, each as its bytes in a lent buffer.
#![tactic(auto)]

ghost use Rattle.std.specs.Prelude.{◌≡◌};
ghost use Rattle.trace.specs.Lines.{line_text, Writes};
ghost use Rattle.trace.specs.declared.Line.TheVariants.{Record as record-line, Fault as fault-line};

mod lines;
mod templates;

use lines::{end_line, fault_line, record_line, refused_line};
use machine::{Fault, Record, ScriptRefusal, TooShort, Totals};

// How many bytes are lent for a line, at least: no line is longer.
pub const LINE_BYTES: usize = 96;

// A record, how the run ended, the fault that ended it before, or the line at which the script was refused.
#[derive(Clone, Copy, PartialEq, Eq, Debug)]
pub enum Line {
    Record(Record),
    End { at: u32, totals: Totals },
    Fault(Fault),
    Refused { refusal: ScriptRefusal, line: u32 },
}

impl From<Record> for Line {
    ghost from_gives = { λ r l. l ≡ record-line r };

    fn from(told: Record) -> Line {
        Line::Record(told)
    }
}

impl From<Fault> for Line {
    ghost from_gives = { λ f l. l ≡ fault-line f };

    fn from(told: Fault) -> Line {
        Line::Fault(told)
    }
}

// Writes the line with its newline to the front of the buffer, and answers how many bytes that are.
pub fn write_line(line: &Line, buffer: &mut [u8]) -> Result<usize, TooShort>
    ensures { Writes (line_text line.now) buffer.old buffer.new result }
{
    if buffer.len() < LINE_BYTES {
        return Err(TooShort);
    }
    let length = match line {
        Line::Record(record) => record_line(record, buffer),
        Line::End { at, totals } => end_line(*at, totals, buffer),
        Line::Fault(fault) => fault_line(fault, buffer),
        Line::Refused { refusal, line } => refused_line(refusal, *line, buffer),
    };
    Ok(length)
}
