// What goes through an order file.
ghost use Rattle.std.specs.Prelude.{ℕ, ◌<◌, ◌≤◌, length, slice_index};

// How many bytes a figure takes: one, or two with the low byte first.
#[derive(Clone, Copy, PartialEq, Eq, Debug)]
pub(crate) enum Size {
    Byte,
    Pair,
}

// An order file, and the place in it at which the next figure is due.
#[derive(Clone, Copy)]
pub(crate) struct Reader<'a> {
    pub file: &'a [u8],
    pub at: usize,
    ghost within: { at ≤ length file.now },
    ghost bytes: { (i : ℕ) → slice_index file.now i < 256 },
}
