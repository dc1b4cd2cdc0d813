use gs_text::{Lines, read_u64};
use std::alloc::AllocError;

#[test]
fn plain_decimals_below_2_64(rt: HostRuntime) {
    let cases = [
        (b"0".as_slice(), Some(0)),
        (b"7".as_slice(), Some(7)),
        (b"10".as_slice(), Some(10)),
        (
            b"18446744073709551615".as_slice(),
            Some(18_446_744_073_709_551_615),
        ),
        (b"18446744073709551616".as_slice(), None),
        (b"100000000000000000000".as_slice(), None),
        (b"".as_slice(), None),
        (b"00".as_slice(), None),
        (b"007".as_slice(), None),
        (b"+7".as_slice(), None),
        (b"-7".as_slice(), None),
        (b"1a".as_slice(), None),
        (b" 1".as_slice(), None),
        (b"\xff".as_slice(), None),
    ];
    for (text, number) in cases {
        assert_eq!(rt; read_u64(text), number);
    }
}

#[test]
fn a_text_word_by_word(rt: HostRuntime) -> Result<(), AllocError> {
    let mut lines = Lines::new(rt.alloc());
    lines.word("rate lo ")?;
    lines.num(10_000)?;
    lines.word(" hi ")?;
    lines.num(340_282_366_920_938_463_463_374_607_431_768_211_455)?;
    lines.end()?;
    lines.num(0)?;
    let want = b"rate lo 10000 hi 340282366920938463463374607431768211455\n0".as_slice();
    assert_eq!(rt; lines.bytes(), want);
    Ok(())
}
