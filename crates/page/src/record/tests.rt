// Rows that fall. No call makes rows stand yet, so they are set here.
use super::Page;
use super::falling::all_rows;
use crate::settings::Settings;
use crate::tables::Tables;
use fault::{Fault, Refusal};
use measure::Depth;
use std::test::Fail;

// Amends and lifts on pages of 0, 1 and 12 pieces: how many rows fall, and how many stand then.
#[test]
fn rows_fall(rt: HostRuntime) -> Result<(), Fail> {
    let refused = Err(Fault::from(Refusal::NoSuchPiece));
    // the pieces, the rows that stand, the piece amended (none: a lift), what is answered, and the rows left
    let cases: [(u8, u16, Option<u8>, Result<u16, Fault>, u16); 16] = [
        (0, 0, Some(0), refused, 0),
        (0, 0, None, refused, 0),
        (1, 0, Some(0), Ok(0), 0),
        (1, 1, Some(0), Ok(1), 0),
        (1, 1, Some(1), refused, 1),
        (1, 1, None, Ok(1), 0),
        (12, 4095, Some(0), Ok(4095), 0),
        (12, 4095, Some(1), Ok(4094), 1),
        (12, 5, Some(2), Ok(2), 3),
        (12, 3, Some(2), Ok(0), 3),
        (12, 4095, Some(11), Ok(2048), 2047),
        (12, 2047, Some(11), Ok(0), 2047),
        (12, 4095, Some(12), refused, 4095),
        (12, 4095, None, Ok(2048), 2047),
        (12, 2048, None, Ok(1), 2047),
        (12, 2047, None, Ok(0), 2047),
    ];
    let first = Settings {
        widths: &[1],
        amounts: &[1],
    };
    let other = Settings {
        widths: &[2],
        amounts: &[2],
    };
    for (pieces, rows, amended, answer, left) in cases {
        let mut page = Page::new();
        let tables = &mut Tables {
            widths: &mut [0; 96],
            amounts: &mut [0; 96],
        };
        for _ in 0..pieces {
            page.put(&Depth, first, tables)?;
        }
        page.standing = rows.min(all_rows(page.count));
        // a row of the table is data, so the step to run is one of two here and no closure
        let found = match amended {
            Some(piece) => page.amend(&Depth, piece, other, tables),
            None => page.lift(),
        };
        assert_eq!(rt; found, answer);
        assert_eq!(rt; page.standing, left);
    }
    Ok(())
}
