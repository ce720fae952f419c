use hv_token::{Lexed, TokenKind, lex};
use std::alloc::{AllocError, Global};
use std::process::Abort;
use std::test::Fail;

// Each token as its kind, its text and its place, and then the stop and the end.
fn shown(alloc: Global, lexed: &Lexed) -> Result<String, AllocError> {
    let mut text = String::new(alloc);
    for token in lexed.tokens.as_slice() {
        let at = token.place.start;
        let line = match &token.kind {
            TokenKind::Word(word) => format!(in alloc; "word {}@{at} ", word.as_str())?,
            TokenKind::Keyword(word) => format!(in alloc; "keyword {}@{at} ", word.as_str())?,
            TokenKind::Number(number) => format!(in alloc; "number {number}@{at} ")?,
            TokenKind::Mark(mark) => format!(in alloc; "{}@{at} ", mark.as_str())?,
        };
        text.push_str(line.as_str())?;
    }
    if let Some(stop) = &lexed.stop {
        let line = format!(in alloc; "stop {:?}@{} ", stop.rule, stop.place.start)?;
        text.push_str(line.as_str())?;
    }
    let line = format!(in alloc; "end {}", lexed.end.start)?;
    text.push_str(line.as_str())?;
    Ok(text)
}

fn lexed(rt: &impl Abort, alloc: Global, source: &[u8]) -> Result<Lexed, AllocError> {
    assert!(rt; source.len() < 4_294_967_295);
    lex(alloc, source)
}

#[test]
fn each_source_has_its_tokens_and_its_stop(rt: HostRuntime) -> Result<(), Fail> {
    let cases: [(&[u8], &str); 29] = [
        (b"", "end 0"),
        (b"// \xc3", "stop L1@3 end 4"),
        (b"-9223372036854775808", "-@0 stop L3@1 end 20"),
        (
            b"9223372036854775807",
            "number 9223372036854775807@0 end 19",
        ),
        (b"0000000000000000000000012", "number 12@0 end 25"),
        (b"12.5", "number 12@0 .@2 number 5@3 end 4"),
        (b"1_0", "number 1@0 word _0@1 end 3"),
        (b"a<=b< =", "word a@0 <=@1 word b@3 <@4 =@6 end 7"),
        (b"===&&&->", "==@0 =@2 &&@3 &@5 ->@6 end 8"),
        (b"a|b", "word a@0 stop L2@1 end 3"),
        (
            b"while whilex xwhile _",
            "keyword while@0 word whilex@6 word xwhile@13 word _@20 end 21",
        ),
        (b"a\rb\tc\nd", "word a@0 word b@2 word c@4 word d@6 end 7"),
        (b"a//b @ \xef\xbb\xbf", "word a@0 end 10"),
        (b"// a\nb / c", "word b@5 /@7 word c@9 end 10"),
        (b"a @ b", "word a@0 stop L2@2 end 5"),
        (b"\xef\xbb\xbfa", "word a@3 end 4"),
        (b"\xef\xbb\xbf\xef\xbb\xbfa", "stop L2@3 end 7"),
        (b"a\xef\xbb\xbfb", "word a@0 stop L2@1 end 5"),
        (
            b"\xc3\xa91 \xe4\xb8\xad",
            "word \u{e9}1@0 word \u{4e2d}@4 end 7",
        ),
        (b"a \xd9\xa3", "word a@0 stop L2@2 end 4"),
        (b"a\xf0", "word a@0 stop L1@1 end 2"),
        (b"a\xf0\x9d", "word a@0 stop L1@1 end 3"),
        (b"a\xf0\x9d\x94", "word a@0 stop L1@1 end 4"),
        (b"a\xf0\x9d\x94\xb8", "word a\u{1d538}@0 end 5"),
        (b"\xc0\xaf", "stop L1@0 end 2"),
        (b"\xed\xa0\x80", "stop L1@0 end 3"),
        (b"@\xff", "stop L2@0 end 2"),
        (b"9223372036854775808\xff", "stop L3@0 end 20"),
        (b"a \xff @", "word a@0 stop L1@2 end 5"),
    ];
    for (source, want) in cases {
        let found = lexed(&rt, rt.alloc(), source)?;
        assert_eq!(rt; shown(rt.alloc(), &found)?.as_str(), want);
    }
    Ok(())
}

#[test]
fn the_longest_sources_are_read_once(rt: HostRuntime) -> Result<(), Fail> {
    let cases = [
        (b' ', 1_048_576, 0, "end 1048576"),
        (b' ', 1_048_577, 0, "stop L0@0 end 1048577"),
        (b'@', 1_000_000, 0, "stop L2@0 end 1000000"),
        (b'9', 1_000_000, 0, "stop L3@0 end 1000000"),
        (b'0', 1_000_000, 1, "number 0@0 end 1000000"),
        (b'/', 1_000_000, 0, "end 1000000"),
    ];
    for (byte, len, count, want) in cases {
        let source = vec![in rt.alloc(); byte; len]?;
        let found = lexed(&rt, rt.alloc(), source.as_slice())?;
        assert_eq!(rt; found.tokens.len(), count, "{want}");
        assert_eq!(rt; shown(rt.alloc(), &found)?.as_str(), want);
    }
    let source = vec![in rt.alloc(); b'a'; 1_000_000]?;
    let found = lexed(&rt, rt.alloc(), source.as_slice())?;
    assert_eq!(rt; found.tokens.len(), 1, "one word");
    assert!(rt; found.stop.is_none(), "one word");
    Ok(())
}
