// What writes into lent memory.

// Lent memory, and the place in it at which the next text goes.
#[derive(Drop)]
pub struct Writer<'a> {
    pub out: &'a mut [u8],
    pub at: usize,
}
