// The text of a layout, written from its entries.
ghost use Rattle.std.specs.Prelude.{◌≡◌, length};
ghost use Rattle.layout.specs.Readings.{Room, Wrote, PlanRoom, PlanWrote};

use crate::entry::{Entry, Kind};
use fault::Writer;

// How far a text is written, from its end back: how many entries and places are left. A slice of the entries left would say no more, and
// each of its calls would have to say that it is a front of all.
#[derive(Clone, Copy)]
struct Cursor {
    entry: usize,
    place: usize,
}

// Writes the text of the layout that the entries before the cursor end with, up to the cursor's place, and answers the cursor before
// that layout.
#[tactic(auto, using(crate::proofs::Endings::some_entry))]
fn write_back(entries: &[Entry], out: &mut [u8], cursor: Cursor) -> Cursor
    requires { Room entries.now cursor.entry cursor.place (length out.old) }
    ensures { Wrote entries.now out.old cursor.entry cursor.place out.new result.entry result.place }
{
    let last = cursor.entry - 1;
    let end = cursor.place - 1;
    let entry = entries[last];
    match entry.kind {
        Kind::Cell => {
            let place = end - 1;
            out[end] = b'0' + entry.setting;
            out[place] = b'a' + entry.piece;
            Cursor { entry: last, place }
        }
        Kind::Cut(cut) => {
            out[end] = cut.closing();
            let right = Cursor {
                entry: last,
                place: end,
            };
            let left = write_back(entries, out, right);
            let start = write_back(entries, out, left);
            let place = start.place - 1;
            out[place] = cut.opening();
            Cursor {
                entry: start.entry,
                place,
            }
        }
    }
}

// Writes the text of the layout whose entries these are at the writer's place, which is then the one behind it.
pub(crate) fn write_plan(entries: &[Entry], out: &mut Writer<'_>)
    requires { PlanRoom entries.now out.old.at (length out.old.out.now) }
    ensures same { out.new.out.ghost_name ≡ out.old.out.ghost_name }
    ensures wrote { PlanWrote entries.now out.old.out.now out.old.at out.new.out.now out.new.at }
{
    let end = out.at + 2 * entries.len();
    let whole = Cursor {
        entry: entries.len(),
        place: end,
    };
    write_back(entries, out.out, whole);
    out.at = end;
}
