use hv_syn_grammar::Cursor;
use hv_tree::{Place, Text, Token, TokenKind};
use std::test::Fail;

#[test]
fn a_word_gives_its_name_and_moves_on(rt: HostRuntime) -> Result<(), Fail> {
    let alloc = rt.alloc();
    let text = Text::from_string(String::from_str(alloc, "main")?);
    let tokens = vec![in alloc;
        Token {
            kind: TokenKind::Word(text),
            place: Place { start: 4 }
        },
    ]?;
    let mut cursor = Cursor::new(tokens.as_slice());
    assert_eq!(rt; cursor.left(), 1);
    match cursor.word(alloc) {
        Ok(name) => {
            assert_eq!(rt; name.text.as_str(), "main");
            assert_eq!(rt; name.place.start, 4);
        }
        Err(stop) => panic!(rt; "{stop:?}"),
    }
    assert_eq!(rt; cursor.left(), 0);
    Ok(())
}
