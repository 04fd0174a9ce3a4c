// Elements written over a part of lent memory.
//
// A memory and a place in it go through these calls by themselves: a `Writer` holds both, but it writes bytes, and these serve elements of any kind.
ghost use Rattle.std.specs.Prelude.{◌≡◌, ◌+◌, ◌≤◌, length, nat_le};
ghost use Rattle.fault.specs.Written.{overwrite, room_wanted, Written};

use crate::refusal::{Fault, Refusal};

// Whether `count` places lie in the memory from place `at` on.
pub fn has_room<T>(memory: &[T], at: usize, count: usize) -> bool
    ensures { result ≡ nat_le (at + count) (length memory.now) }
{
    at <= memory.len() && count <= memory.len() - at
}

// Refuses, for want of memory, where `count` places do not lie in it from place `at` on.
pub fn want_room<T>(memory: &[T], at: usize, count: usize) -> Result<(), Fault>
    ensures { result ≡ room_wanted (length memory.now) at count }
{
    if has_room(memory, at, count) {
        Ok(())
    } else {
        Err(Refusal::Memory.into())
    }
}

// Lays the elements over `out` from place `at` on.
pub(crate) fn lay_over<T: Copy>(items: &[T], out: &mut [T], at: usize)
    requires { at + length items.now ≤ length out.old }
    ensures { out.new ≡ overwrite at items.now out.old }
{
    out[at..at + items.len()].copy_from_slice(items);
}

// Writes the elements over `out` from place `at` on, and answers the place behind them.
// Where `out` has not that many elements from there on, it is refused for want of memory, and nothing is written.
pub fn write_over<T: Copy>(items: &[T], out: &mut [T], at: usize) -> Result<usize, Fault>
    ensures { Written (length items.now) items.now out.old at out.new result }
{
    want_room(out, at, items.len())?;
    lay_over(items, out, at);
    Ok(at + items.len())
}
