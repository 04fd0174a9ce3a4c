// An order file put on a page, and the line that is said of it.
ghost use Rattle.std.specs.Prelude.{◌≡◌, length};
ghost use Rattle.page.specs.Tables.{SameTables, held_in};
ghost use Rattle.scroll.specs.Summary.{Summed, Replied};

use fault::{Fault, LINE_ROOM, refusal_line};
use measure::{Depth, Filed, Gutter};
use order::{Figures, check, fill, heading_line};
use page::{Page, Tables};

// Lines, with the file's gutter between pieces that are above each other.
fn lines_with_gutter(figures: Figures) -> Gutter<Depth>
    ensures { result.gap ≡ figures.gutter }
{
    let gap = Depth.amount(0, u16::from(figures.gutter));
    Gutter { lower: Depth, gap }
}

// Opens the page at the file's breadth, fills it by lines, with the file's gutter, and writes the line of what stands there.
fn summarize(
    file: &[u8],
    page: &mut Page,
    tables: &mut Tables<'_, u16>,
    scratch: &mut [u16],
    line: &mut [u8],
) -> Result<usize, Fault>
    ensures summed { Summed file.now (length scratch.old) (held_in page.old tables.old) (held_in page.new tables.new) line.old line.new result }
    ensures same { SameTables tables.old tables.new }
{
    let figures = check(file)?;
    page.open(figures.breadth)?;
    let m = lines_with_gutter(figures);
    fill(&m, file, page, tables, scratch)?;
    heading_line(page, line)
}

// Writes the line to print for a file, and answers how many bytes that took: of its page's line, or else of the refusal's.
pub fn reply(
    file: &[u8],
    page: &mut Page,
    tables: &mut Tables<'_, u16>,
    scratch: &mut [u16],
    line: &mut [u8; LINE_ROOM],
) -> Result<usize, usize>
    ensures replied { Replied file.now (length scratch.old) (held_in page.old tables.old) (held_in page.new tables.new) line.old line.new result }
    ensures same { SameTables tables.old tables.new }
{
    // no `map_err`: what its closure wrote to the line would not be known behind it
    match summarize(file, page, tables, scratch, line) {
        Ok(end) => Ok(end),
        Err(fault) => Err(refusal_line(fault, line).unwrap()),
    }
}
