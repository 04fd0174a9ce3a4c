// The parts of an order file, read figure by figure in file order.
ghost use Rattle.std.specs.Prelude.{◌≡◌, ◌+◌, ◌≤◌, length, Ok};
ghost use Rattle.fault.specs.Faults.{then};
ghost use Rattle.order.specs.declared.reader.Size.TheVariants.{Byte, Pair};
ghost use Rattle.order.specs.Format.{done, number_at, taken, run, head_first, counts, widths, pairs, order_format};
ghost use Rattle.order.specs.Passing.{Due, Passes, Skips};

use crate::head::Figures;
use crate::reader::{Reader, Size};
use fault::{Fault, Refusal};

// The number in two bytes, the low one first. The pairs of a piece are read by it too, where no reader goes.
pub(crate) fn pair_at(file: &[u8], at: usize) -> u16
    requires { at + 2 ≤ length file.now }
    ensures { result ≡ number_at Pair file.now at }
{
    u16::from_le_bytes([file[at], file[at + 1]])
}

impl Size {
    // How many bytes that is.
    fn bytes(self) -> usize
        ensures { result ≡ taken self }
    {
        match self {
            Size::Byte => 1,
            Size::Pair => 2,
        }
    }
}

impl<'a> Reader<'a> {
    // The reader behind so many bytes.
    fn behind(self, bytes: usize) -> Reader<'a>
        requires { self.at + bytes ≤ length self.file.now }
        ensures file { result.file.now ≡ self.entry.file.now }
        ensures at { result.at ≡ self.entry.at + bytes }
    {
        Reader {
            file: self.file,
            at: self.at + bytes,
        }
    }

    // The number of this size that begins at its place.
    fn number(self, size: Size) -> u16
        requires { self.at + taken size ≤ length self.file.now }
        ensures { result ≡ number_at size self.entry.file.now self.entry.at }
    {
        match size {
            Size::Byte => u16::from(self.file[self.at]),
            Size::Pair => pair_at(self.file, self.at),
        }
    }

    // The figure that is due, from `low` to `high`, and the reader behind it.
    fn figure(self, size: Size, low: u16, high: u16) -> Result<(u16, Reader<'a>), Fault>
        ensures { Due size low high self.entry result }
    {
        if self.file.len() - self.at < size.bytes() {
            return Err(Fault::at(Refusal::FileEndsEarly, self.file.len()));
        }
        let figure = self.number(size);
        if !(low..=high).contains(&figure) {
            return Err(Fault::at(Refusal::FigureOutOfRange, self.at));
        }
        Ok((figure, self.behind(size.bytes())))
    }

    // The same of a figure of one byte.
    fn byte(self, low: u8, high: u8) -> Result<(u8, Reader<'a>), Fault>
        ensures { Due Byte low high self.entry result }
    {
        let (figure, behind) = self.figure(Size::Byte, u16::from(low), u16::from(high))?;
        Ok((figure as u8, behind))
    }

    // The four figures at the head of the file.
    fn head(self) -> Result<(Figures, Reader<'a>), Fault>
        ensures { Passes head_first self.entry result }
    {
        let (pieces, reader) = self.byte(1, 12)?;
        let (breadth, reader) = reader.byte(1, 24)?;
        let (gutter, reader) = reader.byte(0, 200)?;
        let (ceiling, reader) = reader.figure(Size::Pair, 1, 40000)?;
        let figures = Figures {
            pieces,
            breadth,
            gutter,
            ceiling,
        };
        Ok((figures, reader))
    }

    // The number of settings of all pieces, which stand piece by piece behind the head.
    fn counts(self, pieces: u8) -> Result<(usize, Reader<'a>), Fault>
        ensures { Passes (counts pieces 0) self.entry result }
    {
        let mut settings = 0;
        let mut reader = self;
        for _ in 0..pieces {
            let (count, behind) = reader.byte(1, 8)?;
            settings += usize::from(count);
            reader = behind;
        }
        Ok((settings, reader))
    }

    // Passes over so many widths, which are not looked at.
    fn skip_widths(self, settings: usize) -> Result<Reader<'a>, Fault>
        ensures { Skips (widths settings) self.entry result }
    {
        if self.file.len() - self.at < settings {
            return Err(Fault::at(Refusal::FileEndsEarly, self.file.len()));
        }
        Ok(self.behind(settings))
    }

    // Passes over the marks and the depth of one setting.
    fn pair(self) -> Result<Reader<'a>, Fault>
        ensures { Skips (pairs 1) self.entry result }
    {
        let (_, reader) = self.figure(Size::Pair, 0, 1000)?;
        let (_, reader) = reader.figure(Size::Pair, 1, 2000)?;
        Ok(reader)
    }

    // Passes over the marks and depths of so many settings.
    fn pairs(self, settings: usize) -> Result<Reader<'a>, Fault>
        ensures { Skips (pairs settings) self.entry result }
    {
        let mut reader = self;
        for _ in 0..settings {
            reader = reader.pair()?;
        }
        Ok(reader)
    }

    // Refuses a file that goes on behind its last figure.
    fn end(self) -> Result<(), Fault>
        ensures { (h : Figures) → run (done h) self.entry.file.now self.entry.at ≡ then result (λ _. Ok h) }
    {
        if self.at < self.file.len() {
            return Err(Fault::at(Refusal::FileGoesOn, self.at));
        }
        Ok(())
    }

    // The figures at the head of an order that the file is from here on, or the first fault in it.
    pub(crate) fn order(self) -> Result<Figures, Fault>
        ensures { run order_format self.entry.file.now self.entry.at ≡ result }
    {
        let (figures, reader) = self.head()?;
        let (settings, reader) = reader.counts(figures.pieces)?;
        reader.skip_widths(settings)?.pairs(settings)?.end()?;
        Ok(figures)
    }
}
