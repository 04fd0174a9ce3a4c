// Entries compared, and the lines that they make.
ghost use Rattle.std.specs.Prelude.{◌≡◌};
ghost use Rattle.layout.specs.Entries.{cell_entry};

use crate::lines::{begins_with, told};
use fault::{Fault, Refusal};
use layout::{Cut, Entry, Kind, alike, layout_line, none_line};
use measure::{Depth, Marked, MarkedDepth};

const ABOVE: Entry = Entry {
    kind: Kind::Cut(Cut::Above),
    piece: 0,
    setting: 0,
};

const BESIDE: Entry = Entry {
    kind: Kind::Cut(Cut::Beside),
    piece: 0,
    setting: 0,
};

// A piece in a setting.
fn cell(piece: u8, setting: u8) -> Entry
    ensures { result ≡ cell_entry piece setting }
{
    Entry {
        kind: Kind::Cell,
        piece,
        setting,
    }
}

// The numbers of the kinds.
#[test]
fn kinds_are_numbered(rt: HostRuntime) {
    assert_eq!(rt; u8::from(Kind::Cell), 0);
    assert_eq!(rt; u8::from(Kind::Cut(Cut::Above)), 1);
    assert_eq!(rt; u8::from(Kind::Cut(Cut::Beside)), 2);
}

// Kind, piece and length count, and settings do not. Each pair is tried both ways round.
#[test]
fn entries_are_alike_but_for_settings(rt: HostRuntime) {
    let whole = [cell(0, 0), cell(1, 1), BESIDE];
    let cases: [(&[Entry], bool); 9] = [
        (&[cell(0, 0), cell(1, 1), BESIDE], true),
        (&[cell(0, 7), cell(1, 0), BESIDE], true),
        // one more, one fewer, none
        (&[cell(0, 0), cell(1, 1), BESIDE, BESIDE], false),
        (&[cell(0, 0), cell(1, 1)], false),
        (&[], false),
        // the first, the middle and the last differ
        (&[cell(2, 0), cell(1, 1), BESIDE], false),
        (&[cell(0, 0), cell(2, 1), BESIDE], false),
        (&[cell(0, 0), cell(1, 1), ABOVE], false),
        (&[cell(1, 0), cell(0, 1), BESIDE], false),
    ];
    for (other, same) in cases {
        assert_eq!(rt; alike(&whole, other), same);
        assert_eq!(rt; alike(other, &whole), same);
        assert!(rt; alike(other, other));
    }
}

// Each layout makes its line in a buffer of 80 bytes, and none in one of 79.
#[test]
fn layouts_have_lines(rt: HostRuntime) {
    let cases: [(u8, u16, &[Entry], &[u8]); 7] = [
        (1, 2, &[cell(0, 0)], b"1 2 a0"),
        (24, 0, &[cell(11, 7)], b"24 0 l7"),
        (0, 65535, &[cell(3, 4)], b"0 65535 d4"),
        (2, 3, &[cell(0, 0), cell(1, 1), ABOVE], b"2 3 [a0b1]"),
        (2, 3, &[cell(1, 1), cell(0, 0), BESIDE], b"2 3 (b1a0)"),
        (
            4,
            2,
            &[cell(0, 0), cell(1, 1), cell(2, 2), ABOVE, BESIDE],
            b"4 2 (a0[b1c2])",
        ),
        (
            255,
            9,
            &[cell(0, 0), cell(1, 1), ABOVE, cell(2, 2), BESIDE],
            b"255 9 ([a0b1]c2)",
        ),
    ];
    for (width, depth, entries, text) in cases {
        let mut short = [b'#'; 79];
        let answer = layout_line(&Depth, width, depth, entries, &mut short);
        told(&rt, answer, &short, Err(Refusal::Memory));
        let mut line = [b'#'; 80];
        let answer = layout_line(&Depth, width, depth, entries, &mut line);
        told(&rt, answer, &line, Ok(text));
    }
}

// Twelve pieces under the longest amount: cuts that open all at the front, and cuts that close all at the end.
#[test]
fn the_longest_layouts_have_lines(rt: HostRuntime) {
    let left = [
        cell(0, 0),
        cell(1, 1),
        BESIDE,
        cell(2, 2),
        BESIDE,
        cell(3, 3),
        BESIDE,
        cell(4, 4),
        BESIDE,
        cell(5, 5),
        BESIDE,
        cell(6, 6),
        BESIDE,
        cell(7, 7),
        BESIDE,
        cell(8, 0),
        BESIDE,
        cell(9, 1),
        BESIDE,
        cell(10, 2),
        BESIDE,
        cell(11, 3),
        BESIDE,
    ];
    let right = [
        cell(0, 0),
        cell(1, 1),
        cell(2, 2),
        cell(3, 3),
        cell(4, 4),
        cell(5, 5),
        cell(6, 6),
        cell(7, 7),
        cell(8, 0),
        cell(9, 1),
        cell(10, 2),
        cell(11, 3),
        ABOVE,
        ABOVE,
        ABOVE,
        ABOVE,
        ABOVE,
        ABOVE,
        ABOVE,
        ABOVE,
        ABOVE,
        ABOVE,
        ABOVE,
    ];
    let amount = MarkedDepth {
        marks: 65535,
        depth: 65535,
    };
    let cases: [(&[Entry], &[u8]); 2] = [
        (
            &left,
            b"24 65535+65535 (((((((((((a0b1)c2)d3)e4)f5)g6)h7)i0)j1)k2)l3)",
        ),
        (
            &right,
            b"24 65535+65535 [a0[b1[c2[d3[e4[f5[g6[h7[i0[j1[k2l3]]]]]]]]]]]",
        ),
    ];
    for (entries, text) in cases {
        let mut line = [b'#'; 81];
        let answer = layout_line(&Marked, 24, amount, entries, &mut line);
        told(&rt, answer, &line, Ok(text));
        // without its last entry it is none, whatever stands before it
        assert_eq!(rt;
            layout_line(&Marked, 24, amount, &entries[0..22], &mut line),
            Err(Fault::from(Refusal::SpoiledCode))
        );
        begins_with(&rt, &line, text);
    }
}

// What is no layout of different pieces from a to l is refused, and nothing is written; a short buffer comes first.
#[test]
fn other_entries_have_no_line(rt: HostRuntime) {
    let cases: [&[Entry]; 18] = [
        &[],
        // a part too few, and too many
        &[ABOVE],
        &[cell(0, 0), BESIDE],
        &[BESIDE, cell(0, 0), cell(1, 0)],
        &[cell(0, 0), BESIDE, cell(1, 0)],
        &[cell(0, 0), cell(1, 0)],
        &[cell(0, 0), cell(1, 0), cell(2, 0), ABOVE],
        &[cell(0, 0), cell(1, 0), ABOVE, ABOVE],
        // a piece twice
        &[cell(0, 0), cell(0, 0), BESIDE],
        &[cell(11, 0), cell(1, 0), ABOVE, cell(11, 1), BESIDE],
        // no such letter, no such setting
        &[cell(12, 0)],
        &[cell(255, 0)],
        &[cell(0, 8)],
        &[cell(0, 0), cell(1, 255), ABOVE],
        // a cut with a piece, and with a setting
        &[
            cell(0, 0),
            cell(1, 0),
            Entry {
                kind: Kind::Cut(Cut::Above),
                piece: 1,
                setting: 0,
            },
        ],
        &[
            cell(0, 0),
            cell(1, 0),
            Entry {
                kind: Kind::Cut(Cut::Beside),
                piece: 0,
                setting: 1,
            },
        ],
        // more than twelve pieces make
        &[BESIDE; 24],
        &[cell(0, 0); 24],
    ];
    for entries in cases {
        let mut short = [b'#'; 79];
        let answer = layout_line(&Depth, 1, 1, entries, &mut short);
        told(&rt, answer, &short, Err(Refusal::Memory));
        let mut line = [b'#'; 80];
        let answer = layout_line(&Depth, 1, 1, entries, &mut line);
        told(&rt, answer, &line, Err(Refusal::SpoiledCode));
    }
}

// A width without a layout has a line too.
#[test]
fn no_layout_has_a_line(rt: HostRuntime) {
    let cases: [(u8, &[u8]); 4] = [
        (0, b"0 none"),
        (1, b"1 none"),
        (24, b"24 none"),
        (255, b"255 none"),
    ];
    for (width, text) in cases {
        let mut short = [b'#'; 79];
        let answer = none_line(width, &mut short);
        told(&rt, answer, &short, Err(Refusal::Memory));
        let mut line = [b'#'; 80];
        let answer = none_line(width, &mut line);
        told(&rt, answer, &line, Ok(text));
    }
}
