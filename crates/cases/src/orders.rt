// Order files, good and bad: what `check` answers.
ghost use Rattle.std.specs.Prelude.{◌≡◌, [], ◌∷◌, ◌++◌, replicate};
ghost use Rattle.std.specs.List.{repeat};

use crate::sample::{HEAD, SAMPLE};
use fault::{Fault, Refusal};
use order::Figures;

// A file that ends early is refused at its length.
#[test]
fn every_truncation_ends_early(rt: HostRuntime) {
    assert_eq!(rt; order::check(&SAMPLE), Ok(HEAD));
    for length in 0..43usize {
        let answer = Err(Fault::at(Refusal::FileEndsEarly, length));
        assert_eq!(rt; order::check(&SAMPLE[..length]), answer);
    }
}

// One byte of the sample changed: the head that `check` then answers, or none where the figure at that byte is refused.
#[test]
fn bytes_keep_their_limits(rt: HostRuntime) {
    let cases = [
        // pieces
        (0, 0, None),
        (0, 13, None),
        // breadth
        (1, 0, None),
        (1, 1, Some(Figures { breadth: 1, ..HEAD })),
        (
            1,
            24,
            Some(Figures {
                breadth: 24,
                ..HEAD
            }),
        ),
        (1, 25, None),
        // gutter
        (
            2,
            200,
            Some(Figures {
                gutter: 200,
                ..HEAD
            }),
        ),
        (2, 201, None),
        // settings of the first, the second and the last piece
        (5, 0, None),
        (5, 9, None),
        (6, 0, None),
        (6, 9, None),
        (7, 0, None),
        (7, 9, None),
        // widths, which are not looked at
        (8, 0, Some(HEAD)),
        (8, 255, Some(HEAD)),
        (14, 0, Some(HEAD)),
        (14, 255, Some(HEAD)),
    ];
    for (at, byte, head) in cases {
        assert!(rt; at < 43);
        let mut file = SAMPLE;
        file[at] = byte;
        let answer = head.ok_or(Fault::at(Refusal::FigureOutOfRange, at));
        assert_eq!(rt; order::check(&file), answer, "{byte} at {at}");
    }
}

// The same with two bytes changed, which hold one number, the low byte first.
#[test]
fn pairs_keep_their_limits(rt: HostRuntime) {
    let cases = [
        // ceiling
        (3, 0, None),
        (3, 1, Some(Figures { ceiling: 1, ..HEAD })),
        (
            3,
            40000,
            Some(Figures {
                ceiling: 40000,
                ..HEAD
            }),
        ),
        (3, 40001, None),
        // marks of the first setting and of the last
        (15, 1000, Some(HEAD)),
        (15, 1001, None),
        (39, 1000, Some(HEAD)),
        (39, 1001, None),
        // depth of the first setting and of the last
        (17, 0, None),
        (17, 1, Some(HEAD)),
        (17, 2000, Some(HEAD)),
        (17, 2001, None),
        (41, 0, None),
        (41, 1, Some(HEAD)),
        (41, 2000, Some(HEAD)),
        (41, 2001, None),
    ];
    for (at, number, head) in cases {
        assert!(rt; at < 42);
        let mut file = SAMPLE;
        file[at..at + 2].copy_from_slice(&u16::to_le_bytes(number));
        let answer = head.ok_or(Fault::at(Refusal::FigureOutOfRange, at));
        assert_eq!(rt; order::check(&file), answer, "{number} at {at}");
    }
}

// A file that goes on is refused at the first byte behind its last figure, however far it goes on and with whatever bytes.
#[test]
fn nothing_follows_the_last_figure(rt: HostRuntime) {
    for byte in [0, 1, 255] {
        let mut file = [byte; 512];
        file[..43].copy_from_slice(&SAMPLE);
        for length in 44..=512usize {
            let answer = Err(Fault::at(Refusal::FileGoesOn, 43));
            assert_eq!(rt; order::check(&file[..length]), answer);
        }
    }
}

// Of two faults the earlier one in the file is answered; a number of which only the first byte is there ends early, whatever it is.
#[test]
fn the_first_fault_is_answered(rt: HostRuntime) {
    let mut no_last_depth = SAMPLE;
    no_last_depth[41] = 0;
    let mut many_marks = SAMPLE;
    many_marks[40] = 255;
    let cases = [
        // no breadth or too much of it, and an early end
        (&[3, 0][..], Refusal::FigureOutOfRange, 1),
        (&[3, 25][..], Refusal::FigureOutOfRange, 1),
        // no pieces, too much breadth and an early end
        (&[0, 25][..], Refusal::FigureOutOfRange, 0),
        // half a ceiling of none, and a whole one
        (&[3, 4, 0, 0][..], Refusal::FileEndsEarly, 4),
        (&[3, 4, 0, 0, 0][..], Refusal::FigureOutOfRange, 3),
        // nine settings, and an early end
        (&[3, 4, 0, 40, 0, 2, 9][..], Refusal::FigureOutOfRange, 6),
        // half a last depth of none, and a whole one
        (&no_last_depth[..42], Refusal::FileEndsEarly, 42),
        (&no_last_depth[..43], Refusal::FigureOutOfRange, 41),
        // too many marks, and an early end
        (&many_marks[..41], Refusal::FigureOutOfRange, 39),
        (&many_marks[..40], Refusal::FileEndsEarly, 40),
        // nothing at all, and nothing but zeros
        (&[][..], Refusal::FileEndsEarly, 0),
        (&[0; 512][..], Refusal::FigureOutOfRange, 0),
    ];
    for (file, refusal, place) in cases {
        let answer = Err(Fault::at(refusal, place));
        let length = file.len();
        assert_eq!(rt; order::check(file), answer, "in {length} bytes");
    }
}

// The shortest good file has every figure at its low limit.
#[test]
fn the_shortest_good_file(rt: HostRuntime) {
    let file = [1, 1, 0, 1, 0, 1, 0, 0, 0, 1, 0];
    let head = Figures {
        pieces: 1,
        breadth: 1,
        gutter: 0,
        ceiling: 1,
    };
    assert_eq!(rt; order::check(&file), Ok(head));
}

// 12 pieces of 8 settings each, every figure at its high limit: 5 + 12 + 96 + 384 bytes, and one byte behind them.
fn longest_and_a_byte() -> [u8; 498]
    ensures { result ≡ (12 ∷ 24 ∷ 200 ∷ 64 ∷ 156 ∷ []) ++ replicate 108 8 ++ repeat 96 (232 ∷ 3 ∷ 208 ∷ 7 ∷ []) ++ (8 ∷ []) }
{
    let mut file = [8; 498];
    file[..5].copy_from_slice(&[12, 24, 200, 64, 156]);
    file[113..497].copy_from_slice([[232, 3, 208, 7]; 96].as_flattened());
    file
}

// The longest good file: with a byte more it goes on, and with any fewer bytes it ends early.
#[test]
fn the_longest_good_file(rt: HostRuntime) {
    let file = longest_and_a_byte();
    let head = Figures {
        pieces: 12,
        breadth: 24,
        gutter: 200,
        ceiling: 40000,
    };
    assert_eq!(rt; order::check(&file[..497]), Ok(head));
    for length in 0..497usize {
        let answer = Err(Fault::at(Refusal::FileEndsEarly, length));
        assert_eq!(rt; order::check(&file[..length]), answer);
    }
    let answer = Err(Fault::at(Refusal::FileGoesOn, 497));
    assert_eq!(rt; order::check(&file), answer);
}
