use crate::{answer, time_requests};
use gs_units::{Mode, Rate};
use gs_view::{Publisher, Reader, Snap};
use std::test::Fail;

/// The request with the number 5.
const REQUEST: [u8; 16] = *b"GCSQ\0\0\0\0\0\0\0\0\0\0\0\x05";

/// The answer of node 0 to it, at the clock 2000500.
const ANSWER: [u8; 24] = *b"GCSA\0\0\0\0\0\0\0\0\0\0\0\x05\0\0\0\0\0\x1e\x86\x74";

/// How many are refused of bytes that are too short, or too long, or wrong in one of the first 8.
fn refused(reader: &mut Reader) -> usize {
    let mut count = 0usize;
    let short = answer(reader, 0, 3_000_000, &REQUEST[..15]);
    let long = answer(reader, 0, 3_000_000, b"GCSQ\0\0\0\0\0\0\0\0\0\0\0\x05\0");
    for place in 0..8 {
        let mut bytes = REQUEST;
        bytes[place] ^= 1;
        if answer(reader, 0, 3_000_000, &bytes).is_none() {
            count = count.saturating_add(1);
        }
    }
    if short.is_none() && long.is_none() {
        count.saturating_add(2)
    } else {
        count
    }
}

#[test]
fn a_request_is_answered_with_the_clock(rt: HostRuntime) -> Result<(), Fail> {
    let rate = Rate::new(10_000, 10_001, 2_000)?;
    let first = Snap {
        place: 0,
        l: 2_000_000,
        at: 2_000_000,
        mode: Mode::Slow,
    };
    let (publisher, mut reader) = Publisher::new(rt.alloc(), rate, first)?;
    let refused = refused(&mut reader);
    let answered = answer(&mut reader, 0, 2_000_500, &REQUEST);
    let later = reader.now(2_000_400);
    publisher.end(&rt);
    time_requests();
    assert_eq!(rt; (refused, answered, later), (10, Some(ANSWER), 2_000_500));
    Ok(())
}
