// Two lists of entries compared.
ghost use Rattle.std.specs.Prelude.{Decides};
ghost use Rattle.layout.specs.Entries.{Agree, Alike};

use crate::entry::Entry;

// Whether kind and piece of two entries agree; settings are not looked at. The piece first: one byte tells most entries apart.
fn agree(x: Entry, y: Entry) -> bool
    ensures { Decides result (Agree x y) }
{
    x.piece == y.piece && x.kind == y.kind
}

// Whether two lists of entries have one length, and kind and piece agree at every position.
pub fn alike(xs: &[Entry], ys: &[Entry]) -> bool
    ensures { Decides result (Alike xs.now ys.now) }
{
    xs.len() == ys.len() && xs.iter().zip(ys).all(|(x, y)| agree(*x, *y))
}
