// The settings of a piece, and their tests.
ghost use Rattle.std.specs.Prelude.{◌≡◌, length};
ghost use Rattle.page.specs.Puts.{counted, rising, all_improving, tested};

use crate::tables::PIECE_PLACES;
use fault::{Fault, Refusal};
use measure::{Measure, better};

// The settings of one piece: the width of each, and its amount. They are parallel slices, as callers lend them, and may differ in length.
#[derive(Clone, Copy)]
pub struct Settings<'a, A> {
    pub widths: &'a [u8],
    pub amounts: &'a [A],
}

impl<A: Copy> Settings<'_, A> {
    // Their number, then all widths, then all amounts.
    pub(crate) fn test<M: Measure<Amount = A>>(self, m: &M) -> Result<(), Fault>
        ensures { result ≡ tested (M.functions m.now) self.entry.widths.now self.entry.amounts.now }
    {
        self.test_count()?;
        self.test_widths()?;
        self.test_amounts(m)
    }

    // 1 to 8 settings, and as many widths as amounts.
    fn test_count(self) -> Result<(), Fault>
        ensures { result ≡ counted (length self.entry.widths.now) (length self.entry.amounts.now) }
    {
        let count = self.widths.len();
        if !(1..=PIECE_PLACES).contains(&count) || count != self.amounts.len() {
            return Err(Refusal::SettingCount.into());
        }
        Ok(())
    }

    // Each width is above the last, the first above 0, and none is over 24.
    fn test_widths(self) -> Result<(), Fault>
        ensures { result ≡ rising 0 0 self.entry.widths.now }
    {
        let mut last = 0;
        for (i, &width) in self.widths.iter().enumerate() {
            if width <= last || width > 24 {
                return Err(Fault::at(Refusal::Width, i));
            }
            last = width;
        }
        Ok(())
    }

    // Each amount is better than the last.
    fn test_amounts<M: Measure<Amount = A>>(self, m: &M) -> Result<(), Fault>
        ensures { result ≡ all_improving (M.functions m.now) self.entry.amounts.now }
    {
        let no_better = |pair: &[A]| !better(m, pair[1], pair[0]);
        match self.amounts.windows(2).position(no_better) {
            Some(i) => Err(Fault::at(Refusal::Amount, i + 1)),
            None => Ok(()),
        }
    }
}
