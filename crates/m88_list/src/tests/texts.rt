//! Parts of texts, read and written by the calls that all else stands on: lines, numbers, names.

use m88_base::{
    Name, continues_name, decimal_in, digit_value, first_line, hex8_of, number_in, parted_at,
    push_decimal, push_hex2, push_hex8, push_refused,
};
use std::test::Fail;

#[test]
fn lines_end_by_lf_by_cr_lf_and_with_the_input(rt: HostRuntime) {
    for (input, first, after) in [
        (b"a\nb\n".as_slice(), b"a".as_slice(), b"b\n".as_slice()),
        (b"a\r\nb", b"a", b"b"),
        (b"b", b"b", b""),
        (b"\n", b"", b""),
        (b"\r\n\n", b"", b"\n"),
        (b"a\rb\n", b"a\rb", b""),
        (b"a\r", b"a\r", b""),
        (b"a\r\r\n", b"a\r", b""),
    ] {
        assert_eq!(rt; first_line(input), (first, after), "{input:?}");
    }
}

#[test]
fn bytes_of_digits_and_names(rt: HostRuntime) {
    for (byte, worth, in_names) in [
        (0, 36, false),
        (b'#', 36, false),
        (b'$', 36, true),
        (b'-', 36, false),
        (b'.', 36, true),
        (b'/', 36, false),
        (b'0', 0, true),
        (b'9', 9, true),
        (b':', 36, false),
        (b'@', 36, false),
        (b'A', 10, true),
        (b'Z', 35, true),
        (b'[', 36, false),
        (b'_', 36, true),
        (b'`', 36, false),
        (b'a', 10, true),
        (b'z', 35, true),
        (b'{', 36, false),
        (255, 36, false),
    ] {
        assert_eq!(rt;
            (digit_value(byte), continues_name(byte)),
            (worth, in_names),
            "{byte}"
        );
    }
}

#[test]
fn an_input_is_parted_at_its_first_line_of_a_word(rt: HostRuntime) {
    let no_bytes: &[u8] = b"";
    for (input, before, lines, behind) in [
        (
            b"go\nend\nor\n".as_slice(),
            b"go\n".as_slice(),
            2,
            b"or\n".as_slice(),
        ),
        (b"go\r\n\nend\r\n\nend", b"go\r\n\n", 3, b"\nend"),
        (b"end", no_bytes, 1, no_bytes),
        (b"end \n end\nend\n", b"end \n end\n", 3, no_bytes),
    ] {
        let fine = match parted_at(input, b"end") {
            Ok(parted) => (parted.before, parted.lines, parted.behind) == (before, lines, behind),
            Err(_) => false,
        };
        assert!(rt; fine, "{lines}");
    }
    for (input, lines) in [
        (no_bytes, 0),
        (b"end\r", 1),
        (b"go\n\nend\r\r\n", 3),
        (b"\nEND", 2),
    ] {
        let fine = matches!(parted_at(input, b"end"), Err(unparted) if unparted.lines == lines);
        assert!(rt; fine, "{lines}");
    }
}

#[test]
fn numbers_are_read_up_to_a_limit(rt: HostRuntime) {
    for (text, decimal, digits, hex, word) in [
        (b"0".as_slice(), Some(0), Some(0), Some(0), None),
        (b"00", None, Some(0), Some(0), None),
        (b"010", None, Some(10), Some(16), None),
        (b"1000", Some(1000), Some(1000), None, None),
        (b"1001", None, None, None, None),
        (b"99999999999999999999", None, None, None, None),
        (b"3e8", None, None, Some(1000), None),
        (b"3E9", None, None, None, None),
        (b"", None, None, None, None),
        (b"+1", None, None, None, None),
        (b"0000DCFE", None, None, None, Some(0xDCFE)),
        (b"0000dcfe", None, None, None, None),
        (b"FFFFFFFF", None, None, None, Some(0xFFFF_FFFF)),
        (b"000000001", None, Some(1), Some(1), None),
        (b"0000000G", None, None, None, None),
    ] {
        assert_eq!(rt;
            (
                decimal_in(text, 1000),
                number_in(10, text, 1000),
                number_in(16, text, 1000),
                hex8_of(text)
            ),
            (decimal, digits, hex, word),
            "{text:?}"
        );
    }
}

#[test]
fn parts_of_texts_are_written(rt: HostRuntime) -> Result<(), Fail> {
    let mut text = Vec::new(rt.alloc());
    push_hex8(&mut text, 0x0001_AF29).map_err(|_| "memory")?;
    push_hex2(&mut text, 0x0B).map_err(|_| "memory")?;
    push_decimal(&mut text, 0).map_err(|_| "memory")?;
    push_refused(&mut text, 12, 3, b"no such name").map_err(|_| "memory")?;
    assert_eq!(rt;
        text.as_slice(),
        b"0001AF290B0refused 12:3 no such name\n".as_slice()
    );
    Ok(())
}

#[test]
fn names_are_1_to_64_letters_digits_and_marks(rt: HostRuntime) {
    let long = [b'a'; 65];
    for (bytes, fine) in [
        (b"main".as_slice(), true),
        (b"_x.1$", true),
        (b".", true),
        (b"$0", true),
        (&long[..64], true),
        (&long[..], false),
        (b"", false),
        (b"9a", false),
        (b"a b", false),
        (b"a\xE9", false),
        (b"a-", false),
    ] {
        let name = Name::new(bytes);
        assert_eq!(rt; name.is_some(), fine);
        if let Some(name) = name {
            assert_eq!(rt; name.bytes(), bytes);
        }
    }
}
