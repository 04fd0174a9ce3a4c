// An order file read from an input.
ghost use Rattle.std.specs.Prelude.{◌≡◌, ◌+◌, ◌++◌, ◌≤◌, take, vec_len, IfOk, IfSome};
ghost use Rattle.std.specs.Io.{StartsWith};

use std::io;
use std::io::Read;

// Reads the bytes of the input, of which at most so many, to the end of `file`; what was there stays, also where the input fails.
// Lend it with room for one byte more than that: where a vector is full, std asks for more memory before it meets the input's end.
pub fn read_order<R: Read>(input: &mut R, limit: usize, file: &mut Vec<u8>) -> io::Result<()>
    ensures stays { StartsWith file.new.items file.old.items }
    ensures most { vec_len file.new ≤ vec_len file.old + limit }
    ensures bytes { IfOk result (λ _. IfSome (R.remaining input.old) (λ xs. file.new.items ≡ file.old.items ++ take limit xs)) }
{
    let most = file.len().saturating_add(limit);
    let read = input.take(limit as u64).read_to_end(file);
    // no reader gives more, but only this line says so of every reader
    file.truncate(most);
    read?;
    Ok(())
}
