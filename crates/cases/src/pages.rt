// Pages opened, and pieces put on them, amended and lifted.
ghost use Rattle.std.specs.Prelude.{◌≡◌};

use fault::{Fault, Refusal};
use measure::{Depth, Marked, MarkedDepth};
use page::{Page, Settings, Tables};
use std::test::Fail;

// Eight settings that are good, and the first few of them too.
const WIDTHS: [u8; 8] = [1, 2, 3, 5, 8, 13, 21, 24];

const DEPTHS: [u16; 8] = [65535, 2001, 2000, 40, 4, 3, 1, 0];

// Eight others.
const OTHER_WIDTHS: [u8; 8] = [2, 4, 6, 9, 12, 15, 18, 22];

const OTHER_DEPTHS: [u16; 8] = [9999, 999, 99, 88, 77, 66, 55, 5];

// The settings of these widths and amounts.
pub(crate) fn settings_of<'a, A>(widths: &'a [u8], amounts: &'a [A]) -> Settings<'a, A>
    ensures wide { result.widths.now ≡ widths.now }
    ensures deep { result.amounts.now ≡ amounts.now }
{
    Settings { widths, amounts }
}

// A page opens at 1 to 24 columns, without pieces. Any other breadth is refused, and leaves the page as it was.
#[test]
fn pages_open_at_1_to_24_columns(rt: HostRuntime) -> Result<(), Fail> {
    let mut page = Page::new();
    let tables = &mut Tables {
        widths: &mut [0; 96],
        amounts: &mut [0; 96],
    };
    assert_eq!(rt; (page.breadth(), page.count()), (1, 0));
    for breadth in 1..=24 {
        page.put(&Depth, settings_of(&WIDTHS, &DEPTHS), tables)?;
        for wrong in [0, 25, 255] {
            let before = (page.breadth(), 1);
            assert_eq!(rt; page.open(wrong), Err(Refusal::Breadth.into()));
            assert_eq!(rt; (page.breadth(), page.count()), before);
        }
        assert_eq!(rt; page.open(breadth), Ok(()));
        assert_eq!(rt; (page.breadth(), page.count()), (breadth, 0));
    }
    Ok(())
}

// The settings that are refused, and at which of them. The number of settings is tested first, then all widths, then all amounts.
#[test]
fn settings_are_tested_in_order(rt: HostRuntime) {
    let cases: [(&[u8], &[u16], Refusal, usize); 26] = [
        // none; nine; not as many widths as amounts
        (&[], &[], Refusal::SettingCount, 0),
        (
            &[1, 2, 3, 4, 5, 6, 7, 8, 9],
            &[9, 8, 7, 6, 5, 4, 3, 2, 1],
            Refusal::SettingCount,
            0,
        ),
        (&[1], &[], Refusal::SettingCount, 0),
        (&[], &[1], Refusal::SettingCount, 0),
        (&[1, 2], &[2], Refusal::SettingCount, 0),
        (&[1], &[2, 1], Refusal::SettingCount, 0),
        // the same, with wrong widths and amounts
        (&[0; 9], &[1; 9], Refusal::SettingCount, 0),
        (&[0, 25], &[1], Refusal::SettingCount, 0),
        (&[25], &[1, 1], Refusal::SettingCount, 0),
        // a width of 0; over 24; not above the last
        (&[0], &[1], Refusal::Width, 0),
        (&[0, 1], &[2, 1], Refusal::Width, 0),
        (&[25], &[1], Refusal::Width, 0),
        (&[255], &[1], Refusal::Width, 0),
        (&[24, 25], &[2, 1], Refusal::Width, 1),
        (&[2, 2], &[2, 1], Refusal::Width, 1),
        (&[2, 1, 3], &[3, 2, 1], Refusal::Width, 1),
        (&[1, 0], &[2, 1], Refusal::Width, 1),
        (
            &[1, 2, 3, 4, 5, 6, 7, 7],
            &[8, 7, 6, 5, 4, 3, 2, 1],
            Refusal::Width,
            7,
        ),
        // the first of two wrong widths, also behind a wrong amount
        (&[3, 2, 1], &[3, 2, 1], Refusal::Width, 1),
        (&[1, 2, 2], &[1, 1, 1], Refusal::Width, 2),
        (&[1, 2, 25], &[1, 2, 1], Refusal::Width, 2),
        // an amount as good as the last; a worse one
        (&[1, 2], &[1, 1], Refusal::Amount, 1),
        (&[1, 2], &[1, 2], Refusal::Amount, 1),
        (&[1, 2, 3], &[3, 2, 65535], Refusal::Amount, 2),
        (
            &[1, 2, 3, 4, 5, 6, 7, 8],
            &[8, 7, 6, 5, 4, 3, 2, 2],
            Refusal::Amount,
            7,
        ),
        // the first of two wrong amounts
        (&[1, 2, 3], &[2, 2, 2], Refusal::Amount, 1),
    ];
    let mut page = Page::new();
    for (widths, amounts, refusal, place) in cases {
        let mut width_table = [77; 96];
        let mut amount_table = [7777; 96];
        let tables = &mut Tables {
            widths: &mut width_table,
            amounts: &mut amount_table,
        };
        let found = page.put(&Depth, Settings { widths, amounts }, tables);
        assert_eq!(rt; found, Err(Fault::at(refusal, place)));
        assert_eq!(rt; page.count(), 0);
        assert_eq!(rt; width_table, [77; 96]);
        assert_eq!(rt; amount_table, [7777; 96]);
    }
}

// Tables of 95 places are refused before the settings are looked at, and a full page before the tables are.
#[test]
fn tables_are_tested_before_settings(rt: HostRuntime) -> Result<(), Fail> {
    let settings: [(&[u8], &[u16]); 4] = [
        (&[1], &[1]),
        (&[], &[]),
        (&[0], &[1]),
        (&[1, 2], &[1, 1]),
    ];
    let mut page = Page::new();
    let other_tables = &mut Tables {
        widths: &mut [0; 96],
        amounts: &mut [0; 96],
    };
    for piece in 0..=12 {
        for (widths, amounts) in settings {
            for (wide, deep) in [(95, 96), (96, 95), (95, 95), (0, 96), (96, 0)] {
                assert!(rt; wide <= 96 && deep <= 96);
                let mut width_table = [77; 96];
                let mut amount_table = [7777; 96];
                let tables = &mut Tables {
                    widths: &mut width_table[..wide],
                    amounts: &mut amount_table[..deep],
                };
                let found = page.put(&Depth, Settings { widths, amounts }, tables);
                let refusal = if piece == 12 {
                    Refusal::PageFull
                } else {
                    Refusal::Memory
                };
                assert_eq!(rt; found, Err(refusal.into()));
                assert_eq!(rt; page.count(), piece);
                assert_eq!(rt; width_table, [77; 96]);
                assert_eq!(rt; amount_table, [7777; 96]);
            }
        }
        if piece < 12 {
            page.put(&Depth, settings_of(&[24], &[1]), other_tables)?;
        }
    }
    Ok(())
}

// Twelve pieces, of 1 to 8 settings, get the numbers 0 to 11, and one more is refused.
// The settings of piece k stand from place 8k on, and all other places stay.
#[test]
fn twelve_pieces_fill_a_page(rt: HostRuntime) {
    let mut page = Page::new();
    let mut width_table = [77; 97];
    let mut amount_table = [7777; 97];
    let tables = &mut Tables {
        widths: &mut width_table,
        amounts: &mut amount_table,
    };
    for piece in 0..=12u8 {
        let count = usize::from(piece % 8) + 1;
        let settings = settings_of(&WIDTHS[..count], &DEPTHS[..count]);
        let answer = if piece < 12 {
            Ok(piece)
        } else {
            Err(Refusal::PageFull.into())
        };
        assert_eq!(rt; page.put(&Depth, settings, tables), answer);
        assert_eq!(rt; page.count(), 12.min(piece + 1));
    }
    for (place, (&width, &amount)) in width_table.iter().zip(&amount_table).enumerate() {
        let piece = place / 8;
        let setting = place % 8;
        let due = if piece < 12 && setting <= piece % 8 {
            (WIDTHS[setting], DEPTHS[setting])
        } else {
            (77, 7777)
        };
        assert_eq!(rt; (width, amount), due, "place {place}");
    }
}

// An amend looks for the piece first, then at the tables, then at the settings' number, widths and amounts. A refusal changes nothing.
#[test]
fn amends_are_refused_in_order(rt: HostRuntime) -> Result<(), Fail> {
    // the pieces on the page, the piece to amend, and whether it is there
    let pages: [(u8, u8, bool); 9] = [
        (0, 0, false),
        (0, 255, false),
        (1, 0, true),
        (1, 1, false),
        (1, 255, false),
        (12, 0, true),
        (12, 11, true),
        (12, 12, false),
        (12, 255, false),
    ];
    let settings: [(&[u8], &[u16], Refusal, usize); 4] = [
        (&[], &[], Refusal::SettingCount, 0),
        (&[1, 25], &[1], Refusal::SettingCount, 0),
        (&[1, 25], &[1, 1], Refusal::Width, 1),
        (&[1, 24], &[1, 1], Refusal::Amount, 1),
    ];
    for (pieces, piece, there) in pages {
        let mut page = Page::new();
        let other_tables = &mut Tables {
            widths: &mut [0; 96],
            amounts: &mut [0; 96],
        };
        for _ in 0..pieces {
            page.put(&Depth, settings_of(&[24], &[1]), other_tables)?;
        }
        for (widths, amounts, refusal, place) in settings {
            for (wide, deep) in [(95, 96), (96, 95), (0, 0), (96, 96)] {
                assert!(rt; wide <= 96 && deep <= 96);
                let mut width_table = [77; 96];
                let mut amount_table = [7777; 96];
                let tables = &mut Tables {
                    widths: &mut width_table[..wide],
                    amounts: &mut amount_table[..deep],
                };
                let found = page.amend(&Depth, piece, Settings { widths, amounts }, tables);
                let fault = if !there {
                    Refusal::NoSuchPiece.into()
                } else if wide < 96 || deep < 96 {
                    Refusal::Memory.into()
                } else {
                    Fault::at(refusal, place)
                };
                assert_eq!(rt; found, Err(fault));
                assert_eq!(rt; page.count(), pieces);
                assert_eq!(rt; width_table, [77; 96]);
                assert_eq!(rt; amount_table, [7777; 96]);
            }
        }
    }
    Ok(())
}

// Twelve pieces of 8 settings are amended to 1 to 8 others, which stand from place 8k on, and all other places stay.
#[test]
fn amends_change_their_places(rt: HostRuntime) -> Result<(), Fail> {
    let mut page = Page::new();
    let mut width_table = [77; 97];
    let mut amount_table = [7777; 97];
    let tables = &mut Tables {
        widths: &mut width_table,
        amounts: &mut amount_table,
    };
    for _ in 0..12 {
        page.put(&Depth, settings_of(&WIDTHS, &DEPTHS), tables)?;
    }
    for piece in 0..12u8 {
        let count = usize::from(piece % 8) + 1;
        let settings = settings_of(&OTHER_WIDTHS[..count], &OTHER_DEPTHS[..count]);
        assert_eq!(rt; page.amend(&Depth, piece, settings, tables), Ok(0));
        assert_eq!(rt; page.count(), 12);
    }
    for (place, (&width, &amount)) in width_table.iter().zip(&amount_table).enumerate() {
        let piece = place / 8;
        let setting = place % 8;
        let due = if piece >= 12 {
            (77, 7777)
        } else if setting <= piece % 8 {
            (OTHER_WIDTHS[setting], OTHER_DEPTHS[setting])
        } else {
            (WIDTHS[setting], DEPTHS[setting])
        };
        assert_eq!(rt; (width, amount), due, "place {place}");
    }
    Ok(())
}

// Pieces are lifted from the last to the first, and one more lift is refused. A piece put then gets the number of the one lifted,
// and can be amended; the lifted one cannot.
#[test]
fn pieces_are_lifted_and_put_again(rt: HostRuntime) -> Result<(), Fail> {
    let mut page = Page::new();
    let tables = &mut Tables {
        widths: &mut [0; 96],
        amounts: &mut [0; 96],
    };
    page.open(24)?;
    let none = Err(Refusal::NoSuchPiece.into());
    for last in 0..12 {
        let other = settings_of(&[2], &[8]);
        assert_eq!(rt; page.put(&Depth, settings_of(&[1], &[9]), tables), Ok(last));
        assert_eq!(rt; page.lift(), Ok(0));
        assert_eq!(rt; page.amend(&Depth, last, other, tables), none);
        assert_eq!(rt; page.put(&Depth, settings_of(&[3], &[7]), tables), Ok(last));
        assert_eq!(rt; page.amend(&Depth, last, other, tables), Ok(0));
    }
    for left in (0..12).rev() {
        assert_eq!(rt; page.lift(), Ok(0));
        assert_eq!(rt; (page.breadth(), page.count()), (24, left));
    }
    assert_eq!(rt; page.lift(), none);
    assert_eq!(rt; (page.breadth(), page.count()), (24, 0));
    Ok(())
}

// Which amount is better is for the measure to say.
#[test]
fn the_measure_ranks_amounts(rt: HostRuntime) {
    let marked = MarkedDepth { marks: 1, depth: 1 };
    let deep = MarkedDepth { marks: 0, depth: 9 };
    let tables = &mut Tables {
        widths: &mut [0; 96],
        amounts: &mut [marked; 96],
    };
    let mut page = Page::new();
    let found = page.put(&Marked, settings_of(&[1, 2], &[deep, marked]), tables);
    assert_eq!(rt; found, Err(Fault::at(Refusal::Amount, 1)));
    let found = page.put(&Marked, settings_of(&[1, 2], &[marked, deep]), tables);
    assert_eq!(rt; found, Ok(0));
}
