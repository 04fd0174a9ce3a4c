// The pieces of an order file, put on a page.
ghost use Rattle.std.specs.Prelude.{◌≡◌, ◌*◌, ◌≤◌, length};
ghost use Rattle.page.specs.Tables.{SameTables, held_in};
ghost use Rattle.page.specs.Puts.{putting, put_leaves};
ghost use Rattle.order.specs.Fills.{amounts_at, said_of, Spells, AllPut, Filled};

use crate::checking::check;
use crate::reading::pair_at;
use fault::{Fault, want_room};
use measure::Filed;
use page::{Page, Settings, Tables};

// The amounts of scratch memory that a fill takes: the most settings that a piece has.
pub const SCRATCH_PLACES: usize = 8;

// The bytes of a file's head.
const HEAD_BYTES: usize = 5;

// The bytes of a filed pair.
const PAIR_BYTES: usize = 4;

// The bytes that a setting takes in all, its width and its pair.
const SETTING_BYTES: usize = 5;

// Makes the amounts of filed pairs.
fn read_amounts<M: Filed>(m: &M, pairs: &[u8], amounts: &mut [M::Amount])
    requires { length pairs.now ≡ 4 * length amounts.old }
    ensures { amounts.new ≡ amounts_at (M.Filed.filing m.now) pairs.now 0 (length amounts.old) }
{
    // no `zip`: of what is written through an adapter of `iter_mut` nothing is known behind the loop
    let mut rest = pairs;
    for amount in amounts.iter_mut() {
        let (pair, behind) = rest.split_at(PAIR_BYTES);
        *amount = m.amount(pair_at(pair, 0), pair_at(pair, 2));
        rest = behind;
    }
}

// Puts piece `piece` of the file; a refusal is said of that piece.
fn put_piece<M: Filed>(
    m: &M,
    piece: u8,
    settings: Settings<'_, M::Amount>,
    page: &mut Page,
    tables: &mut Tables<'_, M::Amount>,
) -> Result<u8, Fault>
    ensures answer { result ≡ said_of piece (putting (M.Measure.functions m.now) (held_in page.old tables.old) settings.entry.widths.now settings.entry.amounts.now) }
    ensures leaves { held_in page.new tables.new ≡ put_leaves result (held_in page.old tables.old) settings.entry.widths.now settings.entry.amounts.now }
    ensures same { SameTables tables.old tables.new }
{
    page.put(m, settings, tables)
        .map_err(|fault| fault.of_piece(piece))
}

// Puts the pieces of a good file, one by one. The numbers of settings stand behind the head, then the widths, then the filed pairs.
fn put_pieces<M: Filed>(
    m: &M,
    file: &[u8],
    pieces: u8,
    page: &mut Page,
    tables: &mut Tables<'_, M::Amount>,
    scratch: &mut [M::Amount],
) -> Result<u8, Fault>
    requires { (Spells file.now pieces) × (8 ≤ length scratch.old) }
    ensures all { AllPut (M.Measure.functions m.now) (M.Filed.filing m.now) file.now (held_in page.old tables.old) (held_in page.new tables.new) result }
    ensures same { SameTables tables.old tables.new }
{
    let (counts, rest) = file[HEAD_BYTES..].split_at(usize::from(pieces));
    let (mut widths, mut pairs) = rest.split_at(rest.len() / SETTING_BYTES);
    for (piece, &count) in counts.iter().enumerate() {
        let count = usize::from(count);
        let (own_widths, other_widths) = widths.split_at(count);
        let (own_pairs, other_pairs) = pairs.split_at(PAIR_BYTES * count);
        let amounts = &mut scratch[..count];
        read_amounts(m, own_pairs, amounts);
        let settings = Settings {
            widths: own_widths,
            amounts,
        };
        put_piece(m, piece as u8, settings, page, tables)?;
        widths = other_widths;
        pairs = other_pairs;
    }
    Ok(pieces)
}

// Checks the file, then puts its pieces one by one on the page, their amounts made from the filed pairs, and answers how many it put.
// It stops at the first refusal: of the check; for want of 8 amounts of scratch; or of a put, which is then said of the piece's
// number in the file. The pieces put so far stay. What the scratch holds afterwards is unsettled.
// File, page, tables and scratch belong to the caller, each by itself; a struct of them would be made for this call alone.
pub fn fill<M: Filed>(
    m: &M,
    file: &[u8],
    page: &mut Page,
    tables: &mut Tables<'_, M::Amount>,
    scratch: &mut [M::Amount],
) -> Result<u8, Fault>
    ensures filled { Filled (M.Measure.functions m.now) (M.Filed.filing m.now) file.now (length scratch.old) (held_in page.old tables.old) (held_in page.new tables.new) result }
    ensures same { SameTables tables.old tables.new }
{
    let figures = check(file)?;
    want_room(scratch, 0, SCRATCH_PLACES)?;
    put_pieces(m, file, figures.pieces, page, tables, scratch)
}
