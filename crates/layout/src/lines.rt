// The lines that tell of a width: its layout, or that there is none.
ghost use Rattle.fault.specs.Written.{Written};
ghost use Rattle.fault.specs.WrittenBy.{WrittenBy};
ghost use Rattle.layout.specs.Texts.{front_text, none_text, LayoutLine, LayoutWrote};

use crate::entry::Entry;
use crate::reading::is_layout;
use crate::writing::write_plan;
use fault::{Fault, LINE_ROOM, Refusal, Writer};
use measure::Filed;

// The most bytes that a width and an amount take, each with a space behind it.
const FRONT_ROOM: usize = 21;

// Writes `WIDTH AMOUNT `, with a space behind. It wants 21 bytes.
// Width and amount go through three calls; a struct of the two would be made only to be taken apart.
fn write_front<M: Filed>(
    m: &M,
    width: u8,
    amount: M::Amount,
    out: &mut Writer<'_>,
) -> Result<(), Fault>
    ensures { WrittenBy 21 (front_text (M.Filed.filing m.now) width amount) out.old out.new result }
{
    out.wants(FRONT_ROOM)?;
    out.labelled("", u64::from(width))?;
    out.text(" ")?;
    m.write(amount, out)?;
    out.text(" ")
}

// Writes `WIDTH AMOUNT PLAN`. It wants 80 bytes, and then the entries of a layout.
// Neither this nor the next is written by `write!`, which never promises that it succeeds.
fn write_layout<M: Filed>(
    m: &M,
    width: u8,
    amount: M::Amount,
    entries: &[Entry],
    out: &mut Writer<'_>,
) -> Result<(), Fault>
    ensures { LayoutWrote (M.Filed.filing m.now) width amount entries.now out.old out.new result }
{
    out.wants(LINE_ROOM)?;
    if !is_layout(entries) {
        return Err(Refusal::SpoiledCode.into());
    }
    write_front(m, width, amount, out)?;
    write_plan(entries, out);
    Ok(())
}

// Writes `WIDTH none`. It wants 80 bytes.
fn write_none(width: u8, out: &mut Writer<'_>) -> Result<(), Fault>
    ensures { WrittenBy 80 (none_text width) out.old out.new result }
{
    out.wants(LINE_ROOM)?;
    out.labelled("", u64::from(width))?;
    out.text(" none")
}

// Writes `WIDTH AMOUNT PLAN` to the front of the buffer, the plan being the text of the layout whose entries these are, with the
// setting behind each letter: `4 2 (a0[b1c2])`. Answers how many bytes that took.
// Refused, in this order: a buffer of fewer than 80 bytes; entries that are no layout of different pieces from a to l in settings 0
// to 7. Nothing is written then.
// A line goes to the front of a buffer that is lent. The three lines here, and in each call like it, stand around the writing of one text; a
// trait of texts would have to have a type for each of them.
pub fn layout_line<M: Filed>(
    m: &M,
    width: u8,
    amount: M::Amount,
    entries: &[Entry],
    line: &mut [u8],
) -> Result<usize, Fault>
    ensures { LayoutLine (M.Filed.filing m.now) width amount entries.now line.old line.new result }
{
    let mut out = Writer { out: line, at: 0 };
    write_layout(m, width, amount, entries, &mut out)?;
    Ok(out.at)
}

// Writes `WIDTH none` to the front of the buffer, and answers how many bytes that took.
// A buffer of fewer than 80 bytes is refused for want of memory.
pub fn none_line(width: u8, line: &mut [u8]) -> Result<usize, Fault>
    ensures { Written 80 (none_text width) line.old 0 line.new result }
{
    let mut out = Writer { out: line, at: 0 };
    write_none(width, &mut out)?;
    Ok(out.at)
}
