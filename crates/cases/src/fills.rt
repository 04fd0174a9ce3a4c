// Orders put on pages.
use crate::pages::settings_of;
use crate::sample::SAMPLE;
use fault::{Fault, Refusal};
use measure::{Depth, Gutter, Marked, MarkedDepth};
use order::fill;
use page::{Page, Tables};
use std::test::Fail;

// Lines, with a gap of none.
const PLAIN: Gutter<Depth> = Gutter {
    lower: Depth,
    gap: 0,
};

// Each piece of the sample stands in the tables from place 8k on, and all other places stay.
#[test]
fn the_sample_fills_a_page(rt: HostRuntime) -> Result<(), Fail> {
    let mut page = Page::new();
    page.open(4)?;
    let mut width_table = [77; 96];
    let mut amount_table = [7777; 96];
    let tables = &mut Tables {
        widths: &mut width_table,
        amounts: &mut amount_table,
    };
    let found = fill(&PLAIN, &SAMPLE, &mut page, tables, &mut [0; 8]);
    assert_eq!(rt; found, Ok(3));
    assert_eq!(rt; (page.breadth(), page.count()), (4, 3));
    let mut widths = [77; 96];
    widths[0..2].copy_from_slice(&[1, 2]);
    widths[8..10].copy_from_slice(&[1, 2]);
    widths[16..19].copy_from_slice(&[1, 2, 3]);
    assert_eq!(rt; width_table, widths);
    let mut amounts = [7777; 96];
    amounts[0..2].copy_from_slice(&[2, 1]);
    amounts[8..10].copy_from_slice(&[2, 1]);
    amounts[16..19].copy_from_slice(&[3, 2, 1]);
    assert_eq!(rt; amount_table, amounts);
    Ok(())
}

// One byte of the sample changed: the answer, and how many pieces are then on the page. What is refused of a piece names it.
#[test]
fn pieces_before_a_refusal_stay(rt: HostRuntime) -> Result<(), Fail> {
    let cases = [
        // a figure of the file, which is no piece's
        (0, 13, Err(Fault::at(Refusal::FigureOutOfRange, 0)), 0),
        (41, 0, Err(Fault::at(Refusal::FigureOutOfRange, 41)), 0),
        // a width of 0; one over 24; the third piece's widths 1 1 3; one below the last
        (8, 0, Err(Fault::at(Refusal::Width, 0).of_piece(0)), 0),
        (11, 25, Err(Fault::at(Refusal::Width, 1).of_piece(1)), 1),
        (13, 1, Err(Fault::at(Refusal::Width, 1).of_piece(2)), 2),
        (14, 1, Err(Fault::at(Refusal::Width, 2).of_piece(2)), 2),
        // an amount as good as the last; a worse one
        (21, 2, Err(Fault::at(Refusal::Amount, 1).of_piece(0)), 0),
        (29, 3, Err(Fault::at(Refusal::Amount, 1).of_piece(1)), 1),
        (41, 2, Err(Fault::at(Refusal::Amount, 2).of_piece(2)), 2),
        // a width over the breadth; marks, which depth takes no notice of
        (14, 24, Ok(3), 3),
        (15, 9, Ok(3), 3),
        (19, 9, Ok(3), 3),
    ];
    for (at, byte, answer, count) in cases {
        assert!(rt; at < 43);
        let mut file = SAMPLE;
        file[at] = byte;
        let mut page = Page::new();
        page.open(4)?;
        let mut width_table = [77; 96];
        let mut amount_table = [7777; 96];
        let tables = &mut Tables {
            widths: &mut width_table,
            amounts: &mut amount_table,
        };
        let found = fill(&PLAIN, &file, &mut page, tables, &mut [0; 8]);
        assert_eq!(rt; found, answer, "{byte} at {at}");
        assert_eq!(rt; page.count(), count, "{byte} at {at}");
        let first_places = width_table.iter().zip(&amount_table).step_by(8);
        for (piece, (&width, &amount)) in first_places.enumerate() {
            let stays = width == 77 && amount == 7777;
            let due = piece >= usize::from(count);
            assert_eq!(rt; stays, due, "piece {piece}, {byte} at {at}");
        }
    }
    Ok(())
}

// The file is checked first, then the scratch of 8 amounts, and the tables of 96 places only with the first piece.
#[test]
fn short_memory_is_refused(rt: HostRuntime) {
    let memory = Fault::from(Refusal::Memory);
    let cases = [
        (42, 7, 95, 95, Err(Fault::at(Refusal::FileEndsEarly, 42)), 0),
        (43, 7, 96, 96, Err(memory), 0),
        (43, 0, 96, 96, Err(memory), 0),
        (43, 7, 95, 95, Err(memory), 0),
        (43, 8, 95, 96, Err(memory.of_piece(0)), 0),
        (43, 8, 96, 95, Err(memory.of_piece(0)), 0),
        (43, 8, 96, 96, Ok(3), 3),
    ];
    for (length, scratch, wide, deep, answer, count) in cases {
        assert!(rt; length <= 43 && scratch <= 8 && wide <= 96 && deep <= 96);
        let mut page = Page::new();
        let mut width_table = [77; 96];
        let mut amount_table = [7777; 96];
        let tables = &mut Tables {
            widths: &mut width_table[..wide],
            amounts: &mut amount_table[..deep],
        };
        let found = fill(
            &PLAIN,
            &SAMPLE[..length],
            &mut page,
            tables,
            &mut [0; 8][..scratch],
        );
        assert_eq!(rt; found, answer, "scratch {scratch}, tables {wide} {deep}");
        assert_eq!(rt; page.count(), count);
        assert_eq!(rt; width_table == [77; 96], count == 0);
        assert_eq!(rt; amount_table == [7777; 96], count == 0);
    }
}

// The sample behind pieces that are there: the page is full at 12, said of the piece of the file that found no place.
#[test]
fn full_pages_are_refused(rt: HostRuntime) -> Result<(), Fail> {
    let full = Fault::from(Refusal::PageFull);
    let cases = [
        (9, Ok(3)),
        (10, Err(full.of_piece(2))),
        (11, Err(full.of_piece(1))),
        (12, Err(full.of_piece(0))),
    ];
    for (there, answer) in cases {
        let mut page = Page::new();
        let tables = &mut Tables {
            widths: &mut [0; 96],
            amounts: &mut [0; 96],
        };
        for _ in 0..there {
            page.put(&PLAIN, settings_of(&[1], &[1]), tables)?;
        }
        assert_eq!(rt; page.count(), there);
        let found = fill(&PLAIN, &SAMPLE, &mut page, tables, &mut [0; 8]);
        assert_eq!(rt; found, answer, "behind {there}");
        assert_eq!(rt; page.count(), 12);
    }
    Ok(())
}

// The first piece with a mark and 1 line, then no mark and 9 lines: better with marks first, and worse by lines alone.
#[test]
fn the_measure_makes_the_amounts(rt: HostRuntime) {
    let mut file = SAMPLE;
    file[15] = 1;
    file[17] = 1;
    file[21] = 9;
    let none = MarkedDepth { marks: 0, depth: 0 };
    let mut page = Page::new();
    let lines = &mut Tables {
        widths: &mut [0; 96],
        amounts: &mut [0; 96],
    };
    let found = fill(&Depth, &file, &mut page, lines, &mut [0; 8]);
    assert_eq!(rt; found, Err(Fault::at(Refusal::Amount, 1).of_piece(0)));
    let marks = &mut Tables {
        widths: &mut [0; 96],
        amounts: &mut [none; 96],
    };
    let found = fill(&Marked, &file, &mut page, marks, &mut [none; 8]);
    assert_eq!(rt; found, Ok(3));
}
