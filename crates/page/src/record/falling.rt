// The rows that fall when a piece is altered or taken off.
ghost use Rattle.std.specs.Prelude.{◌≡◌, ◌-◌, ◌^◌, ◌≤◌, min};
ghost use Rattle.page.specs.Pieces.{data_of};
ghost use Rattle.page.specs.Amends.{sunk};

use super::Page;

// All rows of so many pieces.
pub(crate) fn all_rows(pieces: u8) -> u16
    requires { pieces ≤ 12 }
    ensures { result ≡ 2 ^ pieces - 1 }
{
    (1u16 << pieces) - 1
}

impl Page {
    // Keeps at most so many of the rows that stand, and answers how many fell.
    pub(crate) fn fall(&mut self, rows: u16) -> u16
        ensures answer { result ≡ self.old.standing - min self.old.standing rows }
        ensures leaves { data_of self.new ≡ sunk rows (data_of self.old) }
    {
        let kept = self.standing.min(rows);
        let fallen = self.standing - kept;
        self.standing = kept;
        fallen
    }
}
