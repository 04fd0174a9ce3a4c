// The figures at the head of an order file.

// Pieces (1 to 12), breadth (1 to 24), gutter lines (0 to 200) and ceiling depth (1 to 40,000).
#[derive(Clone, Copy, PartialEq, Eq, Debug)]
pub struct Figures {
    pub pieces: u8,
    pub breadth: u8,
    pub gutter: u8,
    pub ceiling: u16,
}
