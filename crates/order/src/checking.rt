// An order file checked.
ghost use Rattle.order.specs.Told.{OneOutcome, OneReading, Settled};

use crate::head::Figures;
use crate::reader::Reader;
use fault::Fault;

// The figures at the head of a good file, or the first fault in it.
pub fn check(file: &[u8]) -> Result<Figures, Fault>
    ensures { Settled file.now result }
{
    Reader { file, at: 0 }.order()
}

// A file has at most one reading as an order.
pub fn one_reading()
    ensures { OneReading }
{}

// Exactly one outcome of a check holds of every file.
pub fn one_outcome()
    ensures { OneOutcome }
{}
