// The program `scroll`: reads an order file from standard input, puts its pieces on a page and says what stands there, or names the
// refusal. A refused order ends it with status 1.
#![tactic(auto)]

mod input;
mod replying;
#[cfg(test)]
mod tests;

use fault::LINE_ROOM;
use input::read_order;
use order::SCRATCH_PLACES;
use page::{Page, TABLE_PLACES, Tables};
use replying::reply;
use std::io::Write;
use std::process::ExitCode;

// The most bytes that are read; the longest good order has 497.
const FILE_ROOM: usize = 512;

fn main(rt: HostRuntime) -> anyhow::Result<ExitCode> {
    // one place more than is read, so that reading asks for no memory
    let mut file = Vec::with_capacity(rt.alloc(), FILE_ROOM + 1)?;
    let mut widths = vec![in rt.alloc(); 0u8; TABLE_PLACES]?;
    let mut amounts = vec![in rt.alloc(); 0u16; TABLE_PLACES]?;
    let mut tables = Tables {
        widths: &mut widths,
        amounts: &mut amounts,
    };
    // fixed memory, as the calls take it
    let mut scratch = [0u16; SCRATCH_PLACES];
    let mut line = [0u8; LINE_ROOM];
    let mut page = Page::new();

    read_order(&mut rt.stdin(), FILE_ROOM, &mut file)?;
    let said = reply(&file, &mut page, &mut tables, &mut scratch, &mut line);
    let (Ok(end) | Err(end)) = said;
    let mut out = rt.stdout();
    out.write_all(&line[..end])?;
    out.write_all(b"\n")?;
    Ok(match said {
        Ok(_) => ExitCode::SUCCESS,
        Err(_) => ExitCode::FAILURE,
    })
}
