//! The call that cuts a line into tokens: tokens of each kind, and places that can't be cut, from outside.

use m88_parse::{ParseFault, ParseKind, TokenKind, tokens};
use std::test::Fail;

#[test]
fn tokens_of_each_kind(rt: HostRuntime) -> Result<(), Fail> {
    let line = b"a.$_9:\t0x1F 10 '\\n' \"a;\\\"b\" [r2]<-> ; not this";
    let rows: [(&[u8], u32, TokenKind); 12] = [
        (b"a.$_9", 1, TokenKind::Name),
        (b":", 6, TokenKind::Mark),
        (b"0x1F", 8, TokenKind::Number),
        (b"10", 13, TokenKind::Number),
        (b"'\\n'", 16, TokenKind::Number),
        (b"\"a;\\\"b\"", 21, TokenKind::Text),
        (b"[", 29, TokenKind::Mark),
        (b"r2", 30, TokenKind::Name),
        (b"]", 32, TokenKind::Mark),
        (b"<", 33, TokenKind::Mark),
        (b"-", 34, TokenKind::Mark),
        (b">", 35, TokenKind::Mark),
    ];
    let found = tokens(rt.alloc(), line, 7)
        .ok()
        .ok_or("the line has tokens")?;
    assert_eq!(rt; found.len(), rows.len());
    for (token, row) in found.iter().zip(rows) {
        assert_eq!(rt; token.text, row.0);
        assert_eq!(rt; token.line, 7);
        assert_eq!(rt; token.col, row.1);
        assert_eq!(rt; token.kind, row.2);
    }
    Ok(())
}

#[test]
fn places_that_cannot_be_cut(rt: HostRuntime) {
    let rows: [(&[u8], u32, ParseKind); 14] = [
        (b"foo @", 5, ParseKind::Syntax),
        (b"a \xE9", 3, ParseKind::NotAscii),
        (b"a\r", 2, ParseKind::NotAscii),
        (b" 012", 2, ParseKind::Syntax),
        (b"0x", 1, ParseKind::Syntax),
        (b"1a 99999999999", 1, ParseKind::Syntax),
        (b"4294967296", 1, ParseKind::OutOfRange),
        (b"0x100000000", 1, ParseKind::OutOfRange),
        (b"x '", 3, ParseKind::Syntax),
        (b"x ''", 3, ParseKind::Syntax),
        (b"x 'ab'", 3, ParseKind::Syntax),
        (b"x '\\q'", 3, ParseKind::Syntax),
        (b"x \"a;b", 3, ParseKind::Syntax),
        (b"x \"a;\x01", 6, ParseKind::NotAscii),
    ];
    for (line, col, kind) in rows {
        assert!(rt; line.len() < 100);
        let wanted = ParseFault { line: 3, col, kind };
        assert_eq!(rt; tokens(rt.alloc(), line, 3).err(), Some(wanted));
    }
}

#[test]
fn the_longest_name(rt: HostRuntime) {
    let longest = [b'a'; 64];
    let longer = [b'a'; 65];
    let fault = ParseFault {
        line: 1,
        col: 1,
        kind: ParseKind::OutOfRange,
    };
    assert_eq!(rt; tokens(rt.alloc(), &longest, 1).err(), None);
    assert_eq!(rt; tokens(rt.alloc(), &longer, 1).err(), Some(fault));
}
