// Entries read from their end.
ghost use Rattle.std.specs.Prelude.{ℕ, ◌+◌, Decides};
ghost use Rattle.layout.specs.Layouts.{Layout};
ghost use Rattle.layout.specs.Readings.{CellEntry, CutEntry, Begins, in_cell, cell_count, Collected};
ghost use Rattle.layout.specs.Sets.{bit};
ghost use Rattle.layout.specs.Texts.{Spells};

use crate::entry::{Entry, Kind};
use crate::sets::{holds, with_piece};

// The entries that a layout of twelve pieces has.
const MOST_ENTRIES: usize = 23;

// Whether the entry is a cell, of a piece from a to l in a setting 0 to 7.
fn is_cell(entry: Entry) -> bool
    ensures { Decides result (CellEntry entry) }
{
    entry.kind == Kind::Cell && entry.piece < 12 && entry.setting < 8
}

// Whether the entry is a cut.
fn is_cut(entry: Entry) -> bool
    ensures { Decides result (CutEntry entry) }
{
    matches!(entry.kind, Kind::Cut(_)) && entry.piece == 0 && entry.setting == 0
}

// Where the layout begins that the entries end with; nothing where they end with none.
fn last_layout(entries: &[Entry]) -> Option<usize>
    ensures { Begins entries.now result }
{
    let (last, before) = entries.split_last()?;
    if is_cell(*last) {
        return Some(before.len());
    }
    if !is_cut(*last) {
        return None;
    }
    let middle = last_layout(before)?;
    last_layout(&before[..middle])
}

// The set with the piece of a cell; nothing where it has that piece already. A cut adds nothing.
fn with_entry(set: u16, entry: Entry) -> Option<u16>
    ensures { Collected (λ k. bit k set + in_cell k entry.kind entry.piece) result }
{
    match entry.kind {
        Kind::Cell => (!holds(set, entry.piece)).then_some(with_piece(set, entry.piece)),
        Kind::Cut(_) => Some(set),
    }
}

// The set of the pieces in cells; nothing where a piece is in two.
fn piece_set(entries: &[Entry]) -> Option<u16>
    ensures { Collected (λ k. cell_count k entries.now) result }
{
    entries
        .iter()
        .try_fold(0, |set, entry| with_entry(set, *entry))
}

// Whether the entries are those of a layout of different pieces from a to l, in settings 0 to 7.
// The number of entries is tested first, so that reading them needs no deep stack.
pub(crate) fn is_layout(entries: &[Entry]) -> bool
    ensures { Decides result ((x : Layout) × Spells entries.now x) }
{
    if entries.len() > MOST_ENTRIES {
        return false;
    }
    last_layout(entries) == Some(0) && piece_set(entries).is_some()
}
