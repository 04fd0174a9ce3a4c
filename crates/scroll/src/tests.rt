// What is read, and what is said of it.
use crate::input::read_order;
use crate::replying::reply;
use page::{Page, Tables};
use std::io::Read;
use std::process::Abort;
use std::test::Fail;

// Three pieces at breadth 4, gutter 0, ceiling 40.
const SAMPLE: [u8; 43] = [
    3, 4, 0, 40, 0, 2, 2, 3, 1, 2, 1, 2, 1, 2, 3, 0, 0, 2, 0, 0, 0, 1, 0, 0, 0, 2, 0, 0, 0, 1, 0,
    0, 0, 3, 0, 0, 0, 2, 0, 0, 0, 1, 0,
];

// The line that is said of a file is this text, and the order is accepted or not.
fn says(rt: &impl Abort, file: &[u8], accepted: bool, text: &[u8]) {
    let mut line = [b'.'; 80];
    let mut tables = Tables {
        widths: &mut [0; 96],
        amounts: &mut [0; 96],
    };
    let mut page = Page::new();
    let said = reply(file, &mut page, &mut tables, &mut [0; 8], &mut line);
    assert_eq!(rt; said.is_ok(), accepted);
    let (Ok(end) | Err(end)) = said;
    assert_eq!(rt; &line[0..end], text);
    for byte in &line[end..80] {
        assert_eq!(rt; *byte, b'.');
    }
}

#[test]
fn says_what_stands_or_why_not(rt: HostRuntime) {
    says(&rt, &SAMPLE, true, b"pieces 3 breadth 4");
    says(&rt, &[], false, b"refused 18 order 0");
    says(&rt, &SAMPLE[0..42], false, b"refused 18 order 42");
    let mut file = SAMPLE;
    file[13] = 1;
    says(&rt, &file, false, b"refused 4 page 1 piece 2");
    let mut file = SAMPLE;
    file[21] = 2;
    says(&rt, &file, false, b"refused 5 page 1 piece 0");
    let mut file = SAMPLE;
    file[2] = 201;
    says(&rt, &file, false, b"refused 19 order 2");
}

#[test]
fn joins_short_reads(rt: HostRuntime) -> Result<(), Fail> {
    let front: &[u8] = b"abc";
    let back: &[u8] = b"defgh";
    let mut whole = Vec::with_capacity(rt.alloc(), 11)?;
    read_order(&mut front.chain(back), 10, &mut whole)?;
    assert_eq!(rt; whole.as_slice(), b"abcdefgh".as_slice());
    let mut small = Vec::with_capacity(rt.alloc(), 6)?;
    read_order(&mut front.chain(back), 5, &mut small)?;
    assert_eq!(rt; small.as_slice(), b"abcde".as_slice());
    // what was there stays, and the room for one byte more was enough
    read_order(&mut front.chain(back), 1, &mut whole)?;
    assert_eq!(rt; whole.as_slice(), b"abcdefgha".as_slice());
    assert_eq!(rt; (whole.capacity(), small.capacity()), (11, 6));
    Ok(())
}
