// The two settings tables that a caller lends to a page.
ghost use Rattle.std.specs.Prelude.{◌≡◌, ◌+◌, ◌*◌, ◌≤◌, length};
ghost use Rattle.fault.specs.Written.{overwrite};
ghost use Rattle.page.specs.Puts.{roomy};
ghost use Rattle.page.specs.Tables.{SameTables};

use crate::settings::Settings;
use fault::{Fault, want_room};

// The places of a settings table that belong to one piece.
pub const PIECE_PLACES: usize = 8;

// The places of a settings table, for twelve pieces.
pub const TABLE_PLACES: usize = 96;

// The settings of all pieces of a page, those of piece k from place 8k on: all widths in one table, all amounts in the other. That these
// are two parallel tables of fixed size is a rule of the page. The page's record is not in it: callers keep and copy that by itself.
// A call that is lent a `&mut` of it promises `SameTables`, that it left the same two references there; the type cannot say so of what was before.
#[derive(Drop)]
pub struct Tables<'a, A> {
    pub widths: &'a mut [u8],
    pub amounts: &'a mut [A],
}

impl<A: Copy> Tables<'_, A> {
    // Each table has at least 96 places.
    pub(crate) fn test_room(&self) -> Result<(), Fault>
        ensures { result ≡ roomy (length self.now.widths.now) (length self.now.amounts.now) }
    {
        want_room(self.widths, 0, TABLE_PLACES)?;
        want_room(self.amounts, 0, TABLE_PLACES)
    }

    // Lays the settings in as those of piece k, from place 8k on.
    pub(crate) fn lay(&mut self, piece: u8, settings: Settings<'_, A>)
        requires wide { 8 * piece + length settings.widths.now ≤ length self.old.widths.now }
        requires deep { 8 * piece + length settings.amounts.now ≤ length self.old.amounts.now }
        ensures same { SameTables self.old self.new }
        ensures wide { self.new.widths.now ≡ overwrite (8 * piece) settings.entry.widths.now self.old.widths.now }
        ensures deep { self.new.amounts.now ≡ overwrite (8 * piece) settings.entry.amounts.now self.old.amounts.now }
    {
        let from = PIECE_PLACES * piece as usize;
        self.widths[from..from + settings.widths.len()].copy_from_slice(settings.widths);
        self.amounts[from..from + settings.amounts.len()].copy_from_slice(settings.amounts);
    }
}
