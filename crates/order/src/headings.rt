// The line that says what stands on a page.
ghost use Rattle.fault.specs.Written.{Written};
ghost use Rattle.fault.specs.WrittenBy.{WrittenBy};
ghost use Rattle.order.specs.Headings.{heading};

use fault::{Fault, LINE_ROOM, Writer};
use page::Page;

// Writes `pieces N breadth B`. It wants 80 bytes. Not by `write!`, which never promises that it succeeds.
fn write_heading(page: &Page, out: &mut Writer<'_>) -> Result<(), Fault>
    ensures { WrittenBy 80 (heading page.now.count page.now.breadth) out.old out.new result }
{
    out.wants(LINE_ROOM)?;
    out.labelled("pieces ", u64::from(page.count()))?;
    out.labelled(" breadth ", u64::from(page.breadth()))
}

// Writes `pieces N breadth B` to the front of the buffer, and answers how many bytes that took.
// A buffer of fewer than 80 bytes is refused for want of memory.
pub fn heading_line(page: &Page, line: &mut [u8]) -> Result<usize, Fault>
    ensures { Written 80 (heading page.now.count page.now.breadth) line.old 0 line.new result }
{
    let mut out = Writer { out: line, at: 0 };
    write_heading(page, &mut out)?;
    Ok(out.at)
}
