// Measures: what each makes of amounts.
ghost use Rattle.std.specs.Prelude.{◌≡◌};

use measure::{Ceiling, Depth, Gutter, Marked, MarkedDepth, Measure, better};
use std::fmt::Debug;
use std::process::Abort;

// Each amount gives this cell.
fn makes_cells<M: Measure>(rt: &impl Abort, m: &M, cases: &[(M::Amount, Option<M::Amount>)])
where
    M::Amount: PartialEq + Debug,
{
    for &(a, cell) in cases {
        assert_eq!(rt; m.cell(a), cell, "cell of {a:?}");
    }
}

// Each pair of amounts gives this amount beside each other, and this one above each other.
fn cuts<M: Measure>(
    rt: &impl Abort,
    m: &M,
    cases: &[(M::Amount, M::Amount, Option<M::Amount>, Option<M::Amount>)],
)
where
    M::Amount: PartialEq + Debug,
{
    for &(a, b, beside, above) in cases {
        assert_eq!(rt; m.beside(a, b), beside, "{a:?} beside {b:?}");
        assert_eq!(rt; m.above(a, b), above, "{a:?} above {b:?}");
    }
}

// In each row the first amount is better than the second, and no worse than itself.
fn ranks<M: Measure>(rt: &impl Abort, m: &M, cases: &[(M::Amount, M::Amount)])
where
    M::Amount: PartialEq + Debug,
{
    for &(a, b) in cases {
        let found = (m.no_worse(a, b), m.no_worse(b, a), m.no_worse(a, a));
        assert_eq!(rt; found, (true, false, true), "{a:?} and {b:?}");
        let found = (better(m, a, b), better(m, b, a), better(m, a, a));
        assert_eq!(rt; found, (true, false, false), "{a:?} and {b:?}");
    }
}

// The amount of so many marks and lines.
fn marked(marks: u16, depth: u16) -> MarkedDepth
    ensures marks { result.marks ≡ marks }
    ensures depth { result.depth ≡ depth }
{
    MarkedDepth { marks, depth }
}

#[test]
fn depth_counts_lines(rt: HostRuntime) {
    makes_cells(
        &rt,
        &Depth,
        &[
            (0, None),
            (1, Some(1)),
            (2000, Some(2000)),
            (2001, None),
            (65535, None),
        ],
    );
    cuts(
        &rt,
        &Depth,
        &[
            (0, 0, Some(0), Some(0)),
            (3, 5, Some(5), Some(8)),
            (5, 3, Some(5), Some(8)),
            (2000, 2001, Some(2001), Some(4001)),
            (65534, 1, Some(65534), Some(65535)),
            (65535, 1, Some(65535), Some(65535)),
            (40000, 40000, Some(40000), Some(65535)),
        ],
    );
    ranks(&rt, &Depth, &[(0, 1), (1, 2), (255, 256), (0, 65535)]);
}

#[test]
fn marks_come_before_lines(rt: HostRuntime) {
    makes_cells(
        &rt,
        &Marked,
        &[
            (marked(0, 0), None),
            (marked(0, 1), Some(marked(0, 1))),
            (marked(1000, 2000), Some(marked(1000, 2000))),
            (marked(1001, 2000), None),
            (marked(1000, 2001), None),
            (marked(1000, 0), None),
        ],
    );
    cuts(
        &rt,
        &Marked,
        &[
            (
                marked(1, 3),
                marked(2, 5),
                Some(marked(3, 5)),
                Some(marked(3, 8)),
            ),
            (
                marked(9000, 7),
                marked(999, 4),
                Some(marked(9999, 7)),
                Some(marked(9999, 11)),
            ),
            (marked(9000, 7), marked(1000, 4), None, None),
            (marked(65535, 1), marked(1, 1), None, None),
            (
                marked(0, 65535),
                marked(0, 1),
                Some(marked(0, 65535)),
                Some(marked(0, 65535)),
            ),
        ],
    );
    ranks(
        &rt,
        &Marked,
        &[
            (marked(0, 65535), marked(1, 0)),
            (marked(2, 3), marked(2, 4)),
            (marked(2, 3), marked(3, 3)),
        ],
    );
}

// A gap of 3 lines, and one of 4000 marks and a line; only what is above is spaced.
#[test]
fn gutters_space_what_is_above(rt: HostRuntime) {
    let lines = Gutter {
        lower: Depth,
        gap: 3,
    };
    makes_cells(
        &rt,
        &lines,
        &[(0, None), (1, Some(1)), (2000, Some(2000)), (2001, None)],
    );
    cuts(
        &rt,
        &lines,
        &[
            (1, 1, Some(1), Some(5)),
            (0, 0, Some(0), Some(3)),
            (4, 9, Some(9), Some(16)),
            (65532, 0, Some(65532), Some(65535)),
            (65533, 0, Some(65533), Some(65535)),
        ],
    );
    ranks(&rt, &lines, &[(0, 1), (0, 65535)]);
    let marks = Gutter {
        lower: Marked,
        gap: marked(4000, 1),
    };
    cuts(
        &rt,
        &marks,
        &[
            (
                marked(3000, 2),
                marked(2999, 3),
                Some(marked(5999, 3)),
                Some(marked(9999, 6)),
            ),
            (
                marked(3000, 2),
                marked(3000, 3),
                Some(marked(6000, 3)),
                None,
            ),
            (marked(6000, 2), marked(0, 3), Some(marked(6000, 3)), None),
        ],
    );
}

// A limit of 10 lines, and one of 5 marks and 10 lines; the limit itself is allowed, and ranks are as below.
#[test]
fn ceilings_give_nothing_worse(rt: HostRuntime) {
    let lines = Ceiling {
        lower: Depth,
        limit: 10,
    };
    makes_cells(
        &rt,
        &lines,
        &[(0, None), (1, Some(1)), (10, Some(10)), (11, None)],
    );
    cuts(
        &rt,
        &lines,
        &[
            (5, 5, Some(5), Some(10)),
            (5, 6, Some(6), None),
            (10, 0, Some(10), Some(10)),
            (11, 0, None, None),
            (0, 11, None, None),
            (65535, 65535, None, None),
        ],
    );
    ranks(&rt, &lines, &[(0, 1), (10, 11), (11, 12)]);
    let marks = Ceiling {
        lower: Marked,
        limit: marked(5, 10),
    };
    makes_cells(
        &rt,
        &marks,
        &[
            (marked(4, 2000), Some(marked(4, 2000))),
            (marked(4, 2001), None),
            (marked(5, 10), Some(marked(5, 10))),
            (marked(5, 11), None),
            (marked(6, 1), None),
        ],
    );
    cuts(
        &rt,
        &marks,
        &[
            (
                marked(2, 99),
                marked(2, 99),
                Some(marked(4, 99)),
                Some(marked(4, 198)),
            ),
            (marked(2, 5), marked(3, 6), Some(marked(5, 6)), None),
            (marked(3, 1), marked(3, 1), None, None),
        ],
    );
}
