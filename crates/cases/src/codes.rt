// Sets of pieces, and codes packed and taken apart.
use fault::{Fault, Refusal};
use layout::Code;
use layout::sets::{holds, with_piece};
use std::process::Abort;

// The code has the word, and the word says the code again.
fn is_word(rt: &impl Abort, code: Code, word: u32) {
    assert_eq!(rt; u32::try_from(code), Ok(word));
    assert_eq!(rt; Code::try_from(word), Ok(code));
}

// Each kind at its least and at its limits.
#[test]
fn codes_have_words(rt: HostRuntime) {
    let cases = [
        (Code::Nothing, 0),
        // settings
        (Code::Cell { setting: 0 }, 1),
        (Code::Cell { setting: 7 }, 29),
        // left sets: the least, all of twelve pieces but one, and the largest
        (Code::Above { left: 0 }, 2),
        (Code::Above { left: 4094 }, 16378),
        (Code::Above { left: 4095 }, 16382),
        (Code::Beside { left: 0, width: 0 }, 3),
        (
            Code::Beside {
                left: 4094,
                width: 0,
            },
            16379,
        ),
        (
            Code::Beside {
                left: 4095,
                width: 0,
            },
            16383,
        ),
        // left widths: the least of a page, the widest of a page, and the largest
        (Code::Beside { left: 1, width: 1 }, 16391),
        (Code::Beside { left: 1, width: 23 }, 376839),
        (Code::Beside { left: 1, width: 31 }, 507911),
        (
            Code::Beside {
                left: 4095,
                width: 31,
            },
            524287,
        ),
    ];
    for (code, word) in cases {
        is_word(&rt, code, word);
        assert_eq!(rt; u32::from(u8::from(code.kind())), word % 4);
    }
}

// A part that is too large for its bits has no word.
#[test]
fn large_parts_have_no_word(rt: HostRuntime) {
    let cases = [
        Code::Cell { setting: 8 },
        Code::Cell { setting: 255 },
        Code::Above { left: 4096 },
        Code::Above { left: 65535 },
        Code::Beside {
            left: 4096,
            width: 0,
        },
        Code::Beside {
            left: 65535,
            width: 31,
        },
        Code::Beside { left: 0, width: 32 },
        Code::Beside {
            left: 4095,
            width: 255,
        },
    ];
    for code in cases {
        assert_eq!(rt; u32::try_from(code), Err(Fault::from(Refusal::SpoiledCode)));
    }
}

// No word of a kind has a bit set that the kind does not use.
#[test]
fn unused_bits_make_no_code(rt: HostRuntime) {
    let used_bits: [(u32, u32); 4] = [(0, 2), (1, 5), (2, 14), (3, 19)];
    for (kind, used) in used_bits {
        for bit in used..32 {
            let word = 1 << bit | kind;
            assert_eq!(rt;
                Code::try_from(word),
                Err(Fault::from(Refusal::SpoiledCode)),
                "kind {kind}, bit {bit}"
            );
        }
    }
}

// What is packed comes out again: every cell, and cuts of many sets at every width.
#[test]
fn codes_come_out_again(rt: HostRuntime) {
    for setting in 0..8 {
        let code = Code::Cell { setting };
        is_word(&rt, code, u32::from(setting) * 4 + 1);
    }
    for step in 0..128 {
        let left: u16 = step * 32 + step % 32;
        is_word(&rt, Code::Above { left }, u32::from(left) * 4 + 2);
        for width in 0..32 {
            let word = u32::from(width) * 16384 + u32::from(left) * 4 + 3;
            is_word(&rt, Code::Beside { left, width }, word);
        }
    }
}

// Pieces of a set, put in one after another; the last two have no bit.
#[test]
fn sets_hold_their_pieces(rt: HostRuntime) {
    let cases = [(0, 1), (11, 2049), (15, 34817), (16, 34817), (255, 34817)];
    let mut set = 0;
    for (piece, after) in cases {
        assert!(rt; !holds(set, piece));
        set = with_piece(set, piece);
        assert_eq!(rt; set, after, "piece {piece}");
        // a second time changes nothing
        assert_eq!(rt; with_piece(set, piece), after);
        assert_eq!(rt; holds(set, piece), piece < 16);
    }
    for piece in 0..=255 {
        assert_eq!(rt; holds(set, piece), piece == 0 || piece == 11 || piece == 15);
        assert_eq!(rt; holds(65535, piece), piece < 16);
        assert!(rt; !holds(0, piece));
    }
}
