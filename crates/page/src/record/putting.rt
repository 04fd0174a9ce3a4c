// A piece put on a page.
ghost use Rattle.std.specs.Prelude.{◌<◌, ◌≤◌, IfOk};
ghost use Rattle.page.specs.Tables.{LaidIn, SameTables, held_in};
ghost use Rattle.page.specs.Puts.{Put};
ghost use Rattle.page.specs.Rules.{GoesOn};

use super::Page;
use crate::settings::Settings;
use crate::tables::Tables;
pub use crate::tables::{PIECE_PLACES, TABLE_PLACES};
use fault::{Fault, Refusal};
use measure::Measure;

// The pieces that a page may hold.
pub const MOST_PIECES: u8 = 12;

// Tests the settings, lays them into the tables as those of piece k, from place 8k on, and answers how many they are.
// Refused, in this order: a table is shorter than 96 places; the settings' number; a width; an amount. Then nothing is written.
pub(crate) fn lay_settings<M: Measure>(
    m: &M,
    piece: u8,
    settings: Settings<'_, M::Amount>,
    tables: &mut Tables<'_, M::Amount>,
) -> Result<u8, Fault>
    requires { piece < 12 }
    ensures laid { LaidIn (M.functions m.now) piece settings.entry.widths.now settings.entry.amounts.now tables.old tables.new result }
    ensures few { IfOk result (λ n. (1 ≤ n) × (n ≤ 8)) }
    ensures same { SameTables tables.old tables.new }
{
    tables.test_room()?;
    settings.test(m)?;
    tables.lay(piece, settings);
    Ok(settings.widths.len() as u8)
}

impl Page {
    // Puts one piece more on the page, of these settings, and answers its number.
    // They are kept in the two tables, of at least 96 places each, from place 8n on, where n pieces were on the page.
    // Refused, in this order: twelve pieces are there; a table is shorter; the settings' number; a width; an amount.
    // A refusal leaves the page and the tables as they were. Where the calls made the page with these tables, it obeys the rules of pieces then too.
    #[tactic(auto, using(crate::proofs::Obeyed::stays))]
    pub fn put<M: Measure>(
        &mut self,
        m: &M,
        settings: Settings<'_, M::Amount>,
        tables: &mut Tables<'_, M::Amount>,
    ) -> Result<u8, Fault>
        ensures call { Put (M.functions m.now) (held_in self.old tables.old) settings.entry.widths.now settings.entry.amounts.now (held_in self.new tables.new) result }
        ensures run { GoesOn (M.functions m.now) (held_in self.old tables.old) (held_in self.new tables.new) }
        ensures same { SameTables tables.old tables.new }
    {
        if self.count >= MOST_PIECES {
            return Err(Refusal::PageFull.into());
        }
        let piece = self.count;
        let count = lay_settings(m, piece, settings, tables)?;
        self.settings[piece as usize] = count;
        self.count = piece + 1;
        Ok(piece)
    }
}
