//! The units that sources are parsed into, from outside: values, places, labels, directives, modules.

ghost use Rattle.std.specs.Prelude.{◌<◌, ◌^◌, length};

use m88_base::{Fixup, Kind};
use m88_parse::{Body, ParseFault, ParseKind, Statement, Value, parse};
use std::alloc::Global;
use std::test::Fail;

/// The last statement of the last module.
fn last(alloc: Global, source: &[u8]) -> Option<Statement>
    requires { length source.now < 2 ^ 31 }
{
    let mut modules = parse(alloc, source).ok()?.modules.into_items();
    let mut statements = modules.pop()?.statements.into_items();
    statements.pop()
}

/// The fixup of the last statement, of its last word where it has several.
fn fixup_of(alloc: Global, source: &[u8]) -> Option<Fixup>
    requires { length source.now < 2 ^ 31 }
{
    match last(alloc, source)?.body {
        Body::Code(_, fixup) => fixup,
        Body::Word(values) => match values.into_items().pop()? {
            Value::Symbol(fixup) => Some(fixup),
            Value::Number(_) => None,
        },
        _ => None,
    }
}

#[test]
fn fixups(rt: HostRuntime) {
    let rows: [(&[u8], Kind, &[u8], u32, u32); 12] = [
        (b"or.u r2,r0,hi16(tab)", Kind::Hi16, b"tab", 0, 17),
        (b"or r2,r0,lo16(tab+4)", Kind::Lo16, b"tab", 4, 15),
        (b"ld r2,r0,lo16(hi16)", Kind::Lo16, b"hi16", 0, 15),
        (
            b"mask r2,r0,lo16(tab - 1)",
            Kind::Lo16,
            b"tab",
            4294967295,
            17,
        ),
        (b"br loop", Kind::Pc26, b"loop", 0, 4),
        (b"bsr.n x - 2147483647", Kind::Pc26, b"x", 2147483649, 7),
        (b"bb1 0,r2,.L1+8", Kind::Pc16, b".L1", 8, 10),
        (b"bcnd eq0,r2,lo16", Kind::Pc16, b"lo16", 0, 13),
        (b".word sum", Kind::Abs32, b"sum", 0, 7),
        (
            b".word 1, sum+2147483647",
            Kind::Abs32,
            b"sum",
            2147483647,
            10,
        ),
        (b"a: .word r32-'a'", Kind::Abs32, b"r32", 4294967199, 10),
        (b"\t.word $_9", Kind::Abs32, b"$_9", 0, 8),
    ];
    for (source, kind, symbol, addend, col) in rows {
        assert!(rt; source.len() < 100);
        match fixup_of(rt.alloc(), source) {
            Some(found) => {
                assert_eq!(rt; found.kind, kind);
                assert_eq!(rt; found.symbol.bytes(), symbol);
                assert_eq!(rt; found.addend, addend);
                assert_eq!(rt; found.col, col);
            }
            None => assert!(rt; false, "no symbol"),
        }
    }
}

/// The numbers of a directive's body.
fn numbers_of(alloc: Global, source: &[u8]) -> Option<Vec<u32>>
    requires { length source.now < 2 ^ 31 }
{
    let mut out = Vec::new(alloc);
    match last(alloc, source)?.body {
        Body::At(n) | Body::Zero(n) | Body::Align(n) => out.push(n).ok()?,
        Body::Set { value, .. } => out.push(value).ok()?,
        Body::Word(values) => {
            for value in values.as_slice() {
                match value {
                    Value::Number(n) => out.push(*n).ok()?,
                    Value::Symbol(_) => return None,
                }
            }
        }
        Body::Half(halves) => {
            for half in halves.as_slice() {
                out.push(*half as u32).ok()?;
            }
        }
        Body::Byte(bytes) | Body::Ascii(bytes) => {
            for byte in bytes.as_slice() {
                out.push(*byte as u32).ok()?;
            }
        }
        _ => return None,
    }
    Some(out)
}

#[test]
fn numbers(rt: HostRuntime) {
    let rows: [(&[u8], &[u32]); 14] = [
        (b".word 0,1,-1,4294967295", &[0, 1, 4294967295, 4294967295]),
        (b".word -2147483648,0x7fFF,'a'", &[2147483648, 32767, 97]),
        (b".half 65535,-1,-32768,7", &[65535, 65535, 32768, 7]),
        (b".byte 255,- 1,-128,127,-0", &[255, 255, 128, 127, 0]),
        (
            b".byte '\\n','\\t','\\0','\\\\','\\\"','\\''",
            &[10, 9, 0, 92, 34, 39],
        ),
        (b".byte ' ',';','\"','~'", &[32, 59, 34, 126]),
        (
            b".ascii \"a\\n\\t\\0\\\\\\\"\\';#' z\"",
            &[97, 10, 9, 0, 92, 34, 39, 59, 35, 39, 32, 122],
        ),
        (b".ascii \"\"", &[]),
        (b".at 0xFFFFFFFF", &[4294967295]),
        (b".zero 4294967295", &[4294967295]),
        (b".align 8", &[8]),
        (b".set a,-2147483648", &[2147483648]),
        (b".set a,-1", &[4294967295]),
        (b".set a,0x0000000010", &[16]),
    ];
    for (source, wanted) in rows {
        assert!(rt; source.len() < 100);
        match numbers_of(rt.alloc(), source) {
            Some(found) => assert_eq!(rt; found.as_slice(), wanted),
            None => assert!(rt; false, "no numbers"),
        }
    }
}

#[test]
fn labels_and_places(rt: HostRuntime) {
    let rows: [(&[u8], Option<(&[u8], u32)>, u32, u32); 7] = [
        (b"rte", None, 1, 1),
        (b"  a: rte", Some((b"a", 3)), 1, 6),
        (b"\n\nrte:rte ; x", Some((b"rte", 1)), 3, 5),
        (b"\r\n a\t:", Some((b"a", 2)), 2, 2),
        (b"r01:.word 1", Some((b"r01", 1)), 1, 5),
        (b".module x\n.data", None, 2, 1),
        (b".module:\t.text", Some((b".module", 1)), 1, 10),
    ];
    for (source, label, line, col) in rows {
        assert!(rt; source.len() < 100);
        let Some(found) = last(rt.alloc(), source) else {
            assert!(rt; false, "no statement");
            return;
        };
        assert_eq!(rt; found.line, line);
        assert_eq!(rt; found.col, col);
        match (&found.label, label) {
            (Some((name, at)), Some((wanted, place))) => {
                assert_eq!(rt; name.bytes(), wanted);
                assert_eq!(rt; *at, place);
            }
            (None, None) => (),
            _ => assert!(rt; false, "a label where none is wanted, or none"),
        }
    }
}

/// What a body is, in a word.
fn word_of(body: &Body) -> &'static str {
    match body {
        Body::Empty => "empty",
        Body::Text => "text",
        Body::DataSection => "data",
        Body::Global(_) => "global",
        Body::Set { .. } => "set",
        _ => "another",
    }
}

/// Whether a body is about this symbol, and `.set` names it at this column.
fn is_about(body: &Body, symbol: &[u8], place: u32) -> bool {
    match body {
        Body::Global(name) => name.bytes() == symbol && place == 0,
        Body::Set { name, col, .. } => name.bytes() == symbol && *col == place,
        _ => false,
    }
}

#[test]
fn directives(rt: HostRuntime) {
    let rows: [(&[u8], &str); 5] = [
        (b"a:", "empty"),
        (b".text", "text"),
        (b".data", "data"),
        (b".global hi16", "global"),
        (b"x: .set lo16 , 7", "set"),
    ];
    for (source, word) in rows {
        assert!(rt; source.len() < 100);
        match last(rt.alloc(), source) {
            Some(found) => assert_eq!(rt; word_of(&found.body), word),
            None => assert!(rt; false, "no statement"),
        }
    }
    let rows: [(&[u8], &[u8], u32); 2] = [
        (b".global hi16", b"hi16", 0),
        (b"x: .set lo16 , 7", b"lo16", 9),
    ];
    for (source, wanted, place) in rows {
        assert!(rt; source.len() < 100);
        match last(rt.alloc(), source) {
            Some(found) => assert!(rt; is_about(&found.body, wanted, place)),
            None => assert!(rt; false, "no statement"),
        }
    }
}

#[test]
fn modules_of_a_source(rt: HostRuntime) {
    let rows: [(&[u8], &[(&[u8], u32, usize)]); 6] = [
        (b"", &[(b"main", 1, 0)]),
        (b"\n\nrte", &[(b"main", 1, 1)]),
        (b"\n.module cr5\n.module .", &[(b"cr5", 2, 0), (b".", 3, 0)]),
        (
            b"a:\n.module b\n b: .zero 1 ; text\nrte\n\n.module b",
            &[(b"main", 1, 1), (b"b", 2, 2), (b"b", 6, 0)],
        ),
        (b"; only a comment\n.module x\nrte", &[(b"x", 2, 1)]),
        (b"\t\nrte\n.module y", &[(b"main", 1, 1), (b"y", 3, 0)]),
    ];
    for (source, wanted) in rows {
        assert!(rt; source.len() < 100);
        let Ok(unit) = parse(rt.alloc(), source) else {
            assert!(rt; false, "no unit");
            return;
        };
        let modules = unit.modules.as_slice();
        assert_eq!(rt; modules.len(), wanted.len());
        for (module, row) in modules.iter().zip(wanted.iter()) {
            assert_eq!(rt; module.name.bytes(), row.0);
            assert_eq!(rt; module.line, row.1);
            assert_eq!(rt; module.statements.as_slice().len(), row.2);
        }
    }
}

#[test]
fn sources_of_a_mebibyte(rt: HostRuntime) -> Result<(), Fail> {
    let empty = vec![in rt.alloc(); b'\n'; 1 << 20]?;
    assert!(rt; empty.len() == 1 << 20);
    assert_eq!(rt; parse(rt.alloc(), &empty).err(), None);
    let marks = vec![in rt.alloc(); b','; 1 << 20]?;
    assert!(rt; marks.len() == 1 << 20);
    let fault = ParseFault {
        line: 1,
        col: 1,
        kind: ParseKind::Syntax,
    };
    assert_eq!(rt; parse(rt.alloc(), &marks).err(), Some(fault));
    Ok(())
}
