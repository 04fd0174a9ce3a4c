// The two measures that stand alone: lines, and marks before lines.
ghost use Rattle.measure.specs.Products.{depth, marked, with_marks, cell_depth};
ghost use Rattle.std.specs.Prelude.{◌≡◌};
ghost use Rattle.std.proofs.Common.{rules};

use crate::ranking::Measure;

// Whether a cell may have so many lines.
fn is_cell_depth(depth: u16) -> bool
    ensures { result ≡ cell_depth depth }
{
    (1..=2000).contains(&depth)
}

// Lines, 0 to 65,535; fewer is better.
#[derive(Clone, Copy)]
pub struct Depth;

impl Measure for Depth {
    type Amount = u16;

    ghost functions = { λ _. depth };

    ghost lawful = { Prim.search rules };

    fn no_worse(&self, a: u16, b: u16) -> bool {
        a <= b
    }

    fn cell(&self, a: u16) -> Option<u16> {
        is_cell_depth(a).then_some(a)
    }

    fn beside(&self, a: u16, b: u16) -> Option<u16> {
        Some(a.max(b))
    }

    fn above(&self, a: u16, b: u16) -> Option<u16> {
        Some(a.saturating_add(b))
    }
}

// Marks (settings that an editor would rather avoid) and lines, each 0 to 65,535. They are ordered by marks, and at equal marks by lines.
#[derive(Clone, Copy, PartialEq, Eq, PartialOrd, Ord, Debug)]
pub struct MarkedDepth {
    pub marks: u16,
    pub depth: u16,
}

// Fewer marks are better; at equal marks, fewer lines.
#[derive(Clone, Copy)]
pub struct Marked;

impl Measure for Marked {
    type Amount = MarkedDepth;

    ghost functions = { λ _. marked };

    ghost lawful = { Prim.search rules };

    fn no_worse(&self, a: MarkedDepth, b: MarkedDepth) -> bool {
        a <= b
    }

    fn cell(&self, a: MarkedDepth) -> Option<MarkedDepth> {
        (a.marks <= 1000 && is_cell_depth(a.depth)).then_some(a)
    }

    fn beside(&self, a: MarkedDepth, b: MarkedDepth) -> Option<MarkedDepth> {
        with_marks(a, b, a.depth.max(b.depth))
    }

    fn above(&self, a: MarkedDepth, b: MarkedDepth) -> Option<MarkedDepth> {
        with_marks(a, b, a.depth.saturating_add(b.depth))
    }
}

// The marks of both parts with the depth of the whole; nothing where the marks are over 9,999.
fn with_marks(a: MarkedDepth, b: MarkedDepth, depth: u16) -> Option<MarkedDepth>
    ensures { result ≡ with_marks a b depth }
{
    let marks = a.marks.saturating_add(b.marks);
    (marks <= 9999).then_some(MarkedDepth { marks, depth })
}
