// Decimal numbers, written behind a label of any bytes into lent memory; a `Writer` takes labels that are text.
ghost use Rattle.std.specs.Prelude.{◌≡◌, length, decimal};
ghost use Rattle.fault.specs.Written.{labelled, Written};

use crate::memory::{lay_over, want_room};
use crate::refusal::Fault;
use itoa::write_digits;

// How many digits the number has.
fn digits(n: u64) -> usize
    ensures { result ≡ length (decimal n) }
{
    match n.checked_ilog10() {
        Some(power) => power as usize + 1,
        None => 1,
    }
}

// Writes the label and behind it the number in decimal from place `at` on, and answers the place behind them.
// Where the memory has not that many bytes from there on, it is refused for want of memory, and nothing is written.
// Inline, since most labels and numbers are short: a label that is known then costs no call.
#[inline]
pub fn write_labelled(label: &[u8], n: u64, out: &mut [u8], at: usize) -> Result<usize, Fault>
    ensures { Written (length (labelled label.now n)) (labelled label.now n) out.old at out.new result }
{
    let count = digits(n);
    want_room(out, at, label.len() + count)?;
    lay_over(label, out, at);
    let behind = at + label.len() + count;
    write_digits(n, out, behind);
    Ok(behind)
}
