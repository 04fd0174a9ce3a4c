// The last piece taken off a page.
ghost use Rattle.std.specs.Prelude.{◌≡◌};
ghost use Rattle.page.specs.Pieces.{data_of};
ghost use Rattle.page.specs.Lifts.{lifting, lift_leaves};

use super::Page;
use super::falling::all_rows;
use fault::{Fault, Refusal};

impl Page {
    // Takes the last of n pieces off the page, and answers how many rows fell: of those that stand, at most the first
    // 2^(n − 1) − 1 are kept, which do not rest on that piece. Where there is no piece it is refused, and the page stays as it was.
    pub fn lift(&mut self) -> Result<u16, Fault>
        ensures answer { result ≡ lifting (data_of self.old) }
        ensures leaves { data_of self.new ≡ lift_leaves result (data_of self.old) }
    {
        if self.count < 1 {
            return Err(Refusal::NoSuchPiece.into());
        }
        let last = self.count - 1;
        let fallen = self.fall(all_rows(last));
        self.settings[last as usize] = 0;
        self.count = last;
        Ok(fallen)
    }
}
