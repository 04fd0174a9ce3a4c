// Layers over layers, in either order.
ghost use Rattle.std.specs.Prelude.{◌≡◌};

use crate::own::Least;
use measure::{Ceiling, Depth, Gutter, Measure};

// A ceiling over a gutter, and a gutter over a ceiling.
fn both_orders<M: Measure<Amount = u16> + Copy>(
    m: M,
    gap: u16,
    limit: u16,
) -> (Ceiling<Gutter<M>>, Gutter<Ceiling<M>>)
    ensures ceiling { result.0 ≡ record { lower = record { lower = m; gap = gap }; limit = limit } }
    ensures gutter { result.1 ≡ record { lower = record { lower = m; limit = limit }; gap = gap } }
{
    let ceiling_on_top = Ceiling {
        lower: Gutter { lower: m, gap },
        limit,
    };
    let gutter_on_top = Gutter {
        lower: Ceiling { lower: m, limit },
        gap,
    };
    (ceiling_on_top, gutter_on_top)
}

// With a gap of 9 and a limit of 5, a ceiling below the gutter refuses what the top part and the gap come to, before the lower part is seen.
#[test]
fn the_order_of_layers_counts(rt: HostRuntime) {
    let (ceiling_on_top, gutter_on_top) = both_orders(Least, 9, 5);
    let cases = [
        (7, 3, Some(3), None),
        (6, 5, Some(5), None),
        (5, 6, Some(5), Some(5)),
        (3, 7, Some(3), Some(3)),
        (6, 6, None, None),
    ];
    for (a, b, one, other) in cases {
        let found = (ceiling_on_top.above(a, b), gutter_on_top.above(a, b));
        assert_eq!(rt; found, (one, other), "{a} above {b}");
    }
}

// Over lines, which only grow, a ceiling of 10 and a gutter of 3 give the same in either order.
#[test]
fn over_lines_either_order_gives_the_same(rt: HostRuntime) {
    let (ceiling_on_top, gutter_on_top) = both_orders(Depth, 3, 10);
    for a in 0..=11u16 {
        let cell = (1..=10).contains(&a).then_some(a);
        assert_eq!(rt; ceiling_on_top.cell(a), cell);
        assert_eq!(rt; gutter_on_top.cell(a), cell);
        for b in 0..=11u16 {
            let above = (a + b <= 7).then_some(a + 3 + b);
            assert_eq!(rt; ceiling_on_top.above(a, b), above);
            assert_eq!(rt; gutter_on_top.above(a, b), above);
            let deeper = a.max(b);
            let beside = (deeper <= 10).then_some(deeper);
            assert_eq!(rt; ceiling_on_top.beside(a, b), beside);
            assert_eq!(rt; gutter_on_top.beside(a, b), beside);
        }
    }
}

// A layer may stand on its own kind: the upper gap has the lower one on both its sides, and the lesser limit holds.
#[test]
fn layers_stand_on_their_own_kind(rt: HostRuntime) {
    let gutters = Gutter {
        lower: Gutter {
            lower: Depth,
            gap: 2,
        },
        gap: 3,
    };
    assert_eq!(rt; gutters.above(1, 1), Some(9));
    assert_eq!(rt; gutters.beside(1, 1), Some(1));
    for (upper, lower) in [(5, 10), (10, 5)] {
        let ceilings = Ceiling {
            lower: Ceiling {
                lower: Depth,
                limit: lower,
            },
            limit: upper,
        };
        assert_eq!(rt; ceilings.above(2, 3), Some(5));
        assert_eq!(rt; ceilings.above(3, 3), None);
    }
}
