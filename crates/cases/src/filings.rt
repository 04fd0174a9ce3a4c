// Filed measures: amounts made from filed pairs, and amounts written.
ghost use Rattle.std.specs.Prelude.{◌≡◌};

use crate::own::{Least, Same};
use fault::{Refusal, Writer};
use measure::{Ceiling, Depth, Filed, Gutter, Marked, MarkedDepth};
use std::process::Abort;

// Both layers over a measure, with no gap and no limit that counts.
fn layered<M: Filed>(m: M) -> Ceiling<Gutter<M>>
    ensures lower { result.lower.lower ≡ m }
    ensures gap { result.lower.gap ≡ (M.filing m).amount 0 0 }
    ensures limit { result.limit ≡ (M.filing m).amount 65535 65535 }
{
    let gap = m.amount(0, 0);
    let limit = m.amount(65535, 65535);
    Ceiling {
        lower: Gutter { lower: m, gap },
        limit,
    }
}

// The amount of each filed pair (marks, depth) is written from place 2 on; the rest of the buffer stays.
fn writes<M: Filed>(rt: &impl Abort, m: &M, cases: &[(u16, u16, &[u8; 18], usize)]) {
    for &(marks, depth, after, behind) in cases {
        let mut out = [b'.'; 18];
        let mut writer = Writer {
            out: &mut out,
            at: 2,
        };
        let amount = m.amount(marks, depth);
        assert_eq!(rt; m.write(amount, &mut writer), Ok(()));
        assert_eq!(rt; writer.at, behind, "{marks} marks, {depth} lines");
        assert_eq!(rt; &out, after, "{marks} marks, {depth} lines");
    }
}

// With fewer than 16 bytes from the place on, nothing is written, however short the text, and the writer stays at its place.
fn wants_16_bytes<M: Filed>(rt: &impl Abort, m: &M) {
    for at in [3, 17, 18, 19, usize::MAX] {
        let mut out = [b'.'; 18];
        let mut writer = Writer { out: &mut out, at };
        let amount = m.amount(0, 0);
        assert_eq!(rt; m.write(amount, &mut writer), Err(Refusal::Memory.into()));
        assert_eq!(rt; writer.at, at);
        assert_eq!(rt; out, [b'.'; 18], "at {at}");
    }
}

#[test]
fn amounts_come_from_filed_pairs(rt: HostRuntime) {
    for (marks, depth) in [(0, 0), (1, 2), (1000, 2000), (65535, 65535)] {
        assert_eq!(rt; Depth.amount(marks, depth), depth);
        assert_eq!(rt; layered(Depth).amount(marks, depth), depth);
        let both = MarkedDepth { marks, depth };
        assert_eq!(rt; Marked.amount(marks, depth), both);
        assert_eq!(rt; layered(Marked).amount(marks, depth), both);
        assert_eq!(rt; Same { lower: Least }.amount(marks, depth), depth);
    }
}

#[test]
fn amounts_are_written_in_decimal(rt: HostRuntime) {
    let lines: [(u16, u16, &[u8; 18], usize); 5] = [
        (7, 0, b"..0...............", 3),
        (7, 9, b"..9...............", 3),
        (7, 10, b"..10..............", 4),
        (7, 2000, b"..2000............", 6),
        (7, 65535, b"..65535...........", 7),
    ];
    writes(&rt, &Depth, &lines);
    writes(&rt, &layered(Depth), &lines);
    writes(&rt, &Least, &lines);
    writes(&rt, &Same { lower: Least }, &lines);
    let marks: [(u16, u16, &[u8; 18], usize); 4] = [
        (0, 0, b"..0+0.............", 5),
        (10, 9, b"..10+9............", 6),
        (9999, 100, b"..9999+100........", 10),
        (65535, 65535, b"..65535+65535.....", 13),
    ];
    writes(&rt, &Marked, &marks);
    writes(&rt, &layered(Marked), &marks);
    writes(&rt, &layered(Same { lower: Marked }), &marks);
}

#[test]
fn amounts_want_16_bytes(rt: HostRuntime) {
    wants_16_bytes(&rt, &Depth);
    wants_16_bytes(&rt, &Marked);
    wants_16_bytes(&rt, &layered(Depth));
    wants_16_bytes(&rt, &layered(Marked));
    wants_16_bytes(&rt, &Same { lower: Least });
}
