// The settings of a piece replaced.
ghost use Rattle.page.specs.Tables.{SameTables, held_in};
ghost use Rattle.page.specs.Amends.{Amend};
ghost use Rattle.page.specs.Rules.{GoesOn};

use super::Page;
use super::falling::all_rows;
use super::putting::lay_settings;
use crate::settings::Settings;
use crate::tables::Tables;
use fault::{Fault, Refusal};
use measure::Measure;

impl Page {
    // Replaces the settings of piece k, and answers how many rows fell: of those that stand, at most the first 2^k − 1 are kept,
    // which do not rest on piece k. The new settings are kept in the two tables from place 8k on.
    // Refused, in this order: there is no piece k; a table is shorter than 96 places; the settings' number; a width; an amount.
    // A refusal leaves the page and the tables as they were. Where the calls made the page with these tables, it obeys the rules of pieces then too.
    #[inline]
    #[tactic(auto, using(crate::proofs::Obeyed::stays))]
    pub fn amend<M: Measure>(
        &mut self,
        m: &M,
        piece: u8,
        settings: Settings<'_, M::Amount>,
        tables: &mut Tables<'_, M::Amount>,
    ) -> Result<u16, Fault>
        ensures call { Amend (M.functions m.now) (held_in self.old tables.old) piece settings.entry.widths.now settings.entry.amounts.now (held_in self.new tables.new) result }
        ensures run { GoesOn (M.functions m.now) (held_in self.old tables.old) (held_in self.new tables.new) }
        ensures same { SameTables tables.old tables.new }
    {
        if piece >= self.count {
            return Err(Refusal::NoSuchPiece.into());
        }
        let count = lay_settings(m, piece, settings, tables)?;
        let fallen = self.fall(all_rows(piece));
        self.settings[piece as usize] = count;
        Ok(fallen)
    }
}
