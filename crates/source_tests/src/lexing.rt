//! Texts and what they are read as. The answers are worked out from the rules of the language.

use c_lex::token::{Kind, Token};
use c_lex::{LexFault, MAX_SOURCE, lex};
use std::alloc::{AllocError, Global};
use std::fmt::Write;
use std::test::Fail;

/// A token as a text: its column, and its kind with its value.
fn show(out: &mut String, token: &Token) -> Result<(), AllocError> {
    let line = token.place.line;
    let col = token.place.col;
    write!(out, " {line}:{col}=")?;
    match &token.kind {
        Kind::Name(name) => {
            let len = name.as_slice().len();
            write!(out, "name{len}")
        }
        Kind::Word(word) => write!(out, "{word:?}"),
        Kind::Number {
            value,
            unsigned,
            long,
        } => {
            let u = if *unsigned { "u" } else { "" };
            let l = if *long { "l" } else { "" };
            write!(out, "{value}{u}{l}")
        }
        Kind::Char(value) => write!(out, "char{value}"),
        Kind::Str(bytes) => {
            let bytes = bytes.as_slice();
            write!(out, "{bytes:?}")
        }
        Kind::Mark(mark) => write!(out, "{mark:?}"),
        Kind::Include(header) => write!(out, "{header:?}"),
    }
}

/// The tokens of a text of at most as many bytes as a source may have and one, or its fault.
fn shown(alloc: Global, text: &[u8]) -> Result<String, AllocError> {
    let text = &text[..text.len().min(MAX_SOURCE + 1)];
    let mut out = String::new(alloc);
    match lex(alloc, 3, text) {
        Ok(tokens) => {
            for token in tokens.as_slice() {
                show(&mut out, token)?;
            }
        }
        Err(LexFault::At { code, place }) => {
            let unit = place.unit;
            let line = place.line;
            let col = place.col;
            write!(out, " E0{code} {unit}:{line}:{col}")?;
        }
        Err(LexFault::NoMemory) => return Err(AllocError),
    }
    Ok(out)
}

const CASES: [(&str, &str); 81] = [
    // blanks, line ends and places
    ("", ""),
    ("a\tb@", " E01 3:1:4"),
    ("1\n2\r\n 3 @", " E01 3:3:4"),
    ("a\r b", " 1:1=name1 1:4=name1"),
    // comments
    ("/* a\n b */ c", " 2:7=name1"),
    ("a/**/b/***/c", " 1:1=name1 1:6=name1 1:12=name1"),
    ("a//b\nc", " 1:1=name1 2:1=name1"),
    ("a/*@*/b/*", " E03 3:1:8"),
    ("/*/", " E03 3:1:1"),
    // bytes that begin nothing
    ("a\\", " E01 3:1:2"),
    ("a $", " E01 3:1:3"),
    ("\u{7f}", " E01 3:1:1"),
    // names and words
    ("int auto_", " 1:1=Int 1:5=name5"),
    ("__attribute__ sizeof", " 1:1=Attribute 1:15=Sizeof"),
    ("x union", " E06 3:1:3"),
    ("float f", " E06 3:1:1"),
    ("_Static_assert", " E06 3:1:1"),
    // numbers
    ("unsigned a = 4294967296;", " E02 3:1:14"),
    (
        "unsigned a = 4294967295;",
        " 1:1=Unsigned 1:10=name1 1:12=Assign 1:14=4294967295u 1:24=Semicolon",
    ),
    ("2147483647 2147483648", " 1:1=2147483647 1:12=2147483648u"),
    (
        "0 07 0xfF 037777777777",
        " 1:1=0 1:3=7 1:6=255 1:11=4294967295u",
    ),
    ("040000000000", " E02 3:1:1"),
    ("0x100000000", " E02 3:1:1"),
    ("1u 1L 1uL 1lU", " 1:1=1u 1:4=1l 1:7=1ul 1:11=1ul"),
    ("2147483648l", " 1:1=2147483648ul"),
    ("08", " E01 3:1:2"),
    ("0x", " E01 3:1:2"),
    ("0X1", " E01 3:1:2"),
    ("12a", " E01 3:1:3"),
    ("1uu", " E01 3:1:3"),
    ("1lL", " E01 3:1:3"),
    ("1lu_", " E01 3:1:4"),
    ("1ll", " E06 3:1:1"),
    ("1uLL", " E06 3:1:1"),
    ("1LLu", " E06 3:1:1"),
    ("1llx", " E06 3:1:1"),
    ("4294967296ll", " E02 3:1:1"),
    ("4294967296x", " E02 3:1:1"),
    (" 1.5", " E06 3:1:2"),
    ("1u.5", " 1:1=1u 1:3=Dot 1:4=5"),
    // character constants
    ("'a' '\"' '@'", " 1:1=char97 1:5=char34 1:9=char64"),
    (
        "'\\n' '\\t' '\\r' '\\0' '\\\\' '\\'' '\\\"'",
        " 1:1=char10 1:6=char9 1:11=char13 1:16=char0 1:21=char92 1:26=char39 1:31=char34",
    ),
    (
        "'\\x4' '\\x41' '\\7' '\\77' '\\377'",
        " 1:1=char4 1:7=char65 1:14=char7 1:19=char63 1:25=char255",
    ),
    ("'\\x411'", " E01 3:1:6"),
    ("'\\777'", " E01 3:1:5"),
    ("'\\400'", " E01 3:1:5"),
    ("'\\18'", " E01 3:1:4"),
    ("'\\8'", " E01 3:1:2"),
    ("'\\xg'", " E01 3:1:2"),
    ("'\\q'", " E01 3:1:2"),
    ("''", " E01 3:1:2"),
    ("'ab'", " E01 3:1:3"),
    ("'\n'", " E01 3:1:2"),
    ("'a\n'", " E01 3:1:3"),
    ("'\u{1}'", " E01 3:1:2"),
    (" '", " E01 3:1:2"),
    (" 'a", " E01 3:1:2"),
    (" '\\", " E01 3:1:2"),
    (" '\\x", " E01 3:1:2"),
    (" '\\x4", " E01 3:1:2"),
    // strings
    (
        "\"\" \"a'\\x41g\\1019\"",
        " 1:1=[] 1:4=[97, 39, 65, 103, 65, 57]",
    ),
    ("\"/*\" \"\\n\"", " 1:1=[47, 42] 1:6=[10]"),
    ("\"\\q\"", " E01 3:1:2"),
    ("\"a\n\"", " E01 3:1:3"),
    (" \"a", " E01 3:1:2"),
    (" \"a\\x", " E01 3:1:2"),
    ("\"a\u{1}", " E01 3:1:3"),
    // includes
    ("#include <stdint.h>", " 1:1=StdInt"),
    (
        "int\n \t# include\t<arm_cmse.h>  // ok\nint",
        " 1:1=Int 2:3=ArmCmse 3:1=Int",
    ),
    ("#include<stdint.h>\r\n@", " E01 3:2:1"),
    ("#include <stdint.h> int", " E04 3:1:1"),
    ("#include <stdint.h> /* x */", " E04 3:1:1"),
    ("#include <stdio.h>", " E04 3:1:1"),
    ("# include\n<stdint.h>", " E04 3:1:1"),
    ("#define x 1", " E04 3:1:1"),
    ("a #include <stdint.h>", " E04 3:1:3"),
    ("/* */ #include <stdint.h>", " E04 3:1:7"),
    // marks
    (
        "a<<=b>>=c->d",
        " 1:1=name1 1:2=ShlAssign 1:5=name1 1:6=ShrAssign 1:9=name1 1:10=Arrow 1:12=name1",
    ),
    (
        "a+++b-->c",
        " 1:1=name1 1:2=PlusPlus 1:4=Plus 1:5=name1 1:6=MinusMinus 1:8=Greater 1:9=name1",
    ),
    (
        "&&& ||= !== ...",
        " 1:1=AndAnd 1:3=Amp 1:5=OrOr 1:7=Assign 1:9=NotEqual 1:11=Assign 1:13=Dot 1:14=Dot 1:15=Dot",
    ),
    ("a*/b", " 1:1=name1 1:2=Star 1:3=Slash 1:4=name1"),
];

#[test]
fn texts(rt: HostRuntime) -> Result<(), Fail> {
    for (text, answer) in CASES {
        let found = shown(rt.alloc(), text.as_bytes())?;
        assert_eq!(rt; found.as_str(), answer, "{text:?}");
    }
    Ok(())
}

/// A byte again and again.
fn repeated(alloc: Global, byte: u8, n: usize) -> Result<Vec<u8>, AllocError> {
    vec![in alloc; byte; n]
}

#[test]
fn limits(rt: HostRuntime) -> Result<(), Fail> {
    let cases = [
        (b'a', 255, " 1:1=name255"),
        (b'a', 256, " E01 3:1:1"),
        (b' ', MAX_SOURCE, ""),
        (b' ', MAX_SOURCE + 1, " E05 3:1:1"),
        (b'@', MAX_SOURCE + 1, " E05 3:1:1"),
    ];
    for (byte, n, answer) in cases {
        let text = repeated(rt.alloc(), byte, n)?;
        let found = shown(rt.alloc(), text.as_slice())?;
        assert_eq!(rt; found.as_str(), answer, "{n}");
    }
    Ok(())
}

/// Any byte may stand in a comment, and no byte above `~` elsewhere.
#[test]
fn bytes_above(rt: HostRuntime) -> Result<(), Fail> {
    let in_comment = shown(rt.alloc(), b"/*\x00\xff*/ // \x80\nx")?;
    assert_eq!(rt; in_comment.as_str(), " 2:1=name1");
    let outside = shown(rt.alloc(), b"x \x80")?;
    assert_eq!(rt; outside.as_str(), " E01 3:1:3");
    let in_string = shown(rt.alloc(), b"\"a\xa0\"")?;
    assert_eq!(rt; in_string.as_str(), " E01 3:1:3");
    Ok(())
}
