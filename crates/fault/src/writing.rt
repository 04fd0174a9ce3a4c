// Text and numbers in decimal, written one behind the other.
ghost use Rattle.std.specs.Prelude.{◌≡◌, length};
ghost use Rattle.fault.specs.Written.{labelled, room_wanted};
ghost use Rattle.fault.specs.WrittenBy.{WrittenBy};

use crate::memory::{want_room, write_over};
use crate::numbers::write_labelled;
use crate::refusal::Fault;
use crate::writer::Writer;

impl Writer<'_> {
    // Refuses, for want of memory, where `count` places do not lie there from its place on.
    pub fn wants(&self, count: usize) -> Result<(), Fault>
        ensures { result ≡ room_wanted (length self.now.out.now) self.now.at count }
    {
        want_room(self.out, self.at, count)
    }

    // Writes the text. Where the memory has not that many bytes from its place on, it is refused, and nothing is written.
    pub fn text(&mut self, text: &str) -> Result<(), Fault>
        ensures { WrittenBy (length text.now) text.now self.old self.new result }
    {
        self.at = write_over(text.as_bytes(), self.out, self.at)?;
        Ok(())
    }

    // Writes the label and behind it the number in decimal. Where the memory has not that many bytes from its place on, it is
    // refused, and nothing is written.
    pub fn labelled(&mut self, label: &str, n: u64) -> Result<(), Fault>
        ensures { WrittenBy (length (labelled label.now n)) (labelled label.now n) self.old self.new result }
    {
        self.at = write_labelled(label.as_bytes(), n, self.out, self.at)?;
        Ok(())
    }
}
