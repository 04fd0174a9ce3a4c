// The line of a refusal.
ghost use Rattle.fault.specs.Lines.{refusal_text};
ghost use Rattle.fault.specs.Written.{Written};
ghost use Rattle.fault.specs.WrittenBy.{WrittenBy};

use crate::refusal::Fault;
use crate::report::spaced_word;
use crate::writer::Writer;

// The bytes that a printed line may take.
pub const LINE_ROOM: usize = 80;

// Writes `refused NUMBER LAYER PLACE`, with ` piece K` behind it where there is a piece. It wants 80 bytes.
// Not by `write!` and the fault's `Display`: these never promise that they succeed, and a line fails only for want of memory. It goes to
// the front of a buffer that is lent.
fn write_refusal(fault: Fault, out: &mut Writer<'_>) -> Result<(), Fault>
    ensures { WrittenBy 80 (refusal_text fault) out.old out.new result }
{
    out.wants(LINE_ROOM)?;
    out.labelled("refused ", u64::from(u8::from(fault.refusal)))?;
    out.labelled(spaced_word(fault.refusal.layer()), fault.place as u64)?;
    match fault.piece {
        Some(piece) => out.labelled(" piece ", u64::from(piece)),
        None => Ok(()),
    }
}

// Writes the line of a refusal, `refused 4 page 1 piece 2`, to the front of the buffer, and answers how many bytes that took.
// A buffer of fewer than 80 bytes is refused for want of memory.
pub fn refusal_line(fault: Fault, line: &mut [u8]) -> Result<usize, Fault>
    ensures { Written 80 (refusal_text fault) line.old 0 line.new result }
{
    let mut out = Writer { out: line, at: 0 };
    write_refusal(fault, &mut out)?;
    Ok(out.at)
}
