//! Lines, words and numbers of texts, whatever these say.

use std::test::Fail;
use text_lines::lines::next_line;
use text_lines::numerals::{is_number, natural};
use text_lines::words::{blank, parted};
use text_lines::writer::Writer;

#[test]
fn parts_a_text_into_lines(rt: HostRuntime) -> Result<(), Fail> {
    let mut rest: &[u8] = b"one two\n\nlast";
    for (bytes, ended) in [("one two", true), ("", true), ("last", false)] {
        match next_line(rest) {
            None => return Err(Fail::new("no line")),
            Some((line, more)) => {
                assert_eq!(rt; line.bytes, bytes.as_bytes());
                assert_eq!(rt; line.ended, ended);
                rest = more;
            }
        }
    }
    assert!(rt; next_line(rest).is_none());
    Ok(())
}

#[test]
fn parts_a_line_at_its_first_blank(rt: HostRuntime) -> Result<(), Fail> {
    assert_eq!(rt; blank(b"loop 12 3"), Some(4));
    assert_eq!(rt; blank(b"loop"), None);
    match parted(b"loop 12 3") {
        None => return Err(Fail::new("no blank")),
        Some((first, rest)) => {
            assert_eq!(rt; first, b"loop".as_slice());
            assert_eq!(rt; rest, b"12 3".as_slice());
        }
    }
    Ok(())
}

#[test]
fn takes_numbers_up_to_a_limit(rt: HostRuntime) -> Result<(), Fail> {
    for (word, number) in [
        ("0", Some(0)),
        ("99", Some(99)),
        ("100", None),
        ("18446744073709551617", None),
        ("00", None),
        ("07", None),
        ("-1", None),
        ("1x", None),
        ("", None),
    ] {
        assert_eq!(rt; natural(99, word.as_bytes()), number, "of {word}");
    }
    assert!(rt; is_number(b"18446744073709551617"));
    assert!(rt; !is_number(b"01"));
    Ok(())
}

#[test]
fn appends_bytes_and_numbers(rt: HostRuntime) -> Result<(), Fail> {
    let mut writer = Writer::new(rt.alloc());
    writer.append(b"chk");
    writer.natural(b" ", u64::MAX);
    writer.number(b" ", i64::MIN);
    let text = writer.finish()?;
    assert_eq!(rt;
        text.as_slice(),
        b"chk 18446744073709551615 -9223372036854775808".as_slice()
    );
    Ok(())
}
