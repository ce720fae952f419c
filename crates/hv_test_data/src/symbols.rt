use hv_symbols::Texts;
use std::test::Fail;

#[test]
fn the_first_of_equal_texts_is_found(rt: HostRuntime) -> Result<(), Fail> {
    let mut texts = Texts::new(rt.alloc());
    for text in ["a", "b", "a", "c"] {
        texts.push(text)?;
    }
    assert_eq!(rt; texts.len(), 4);
    assert_eq!(rt; texts.find("a"), Some(0));
    assert_eq!(rt; texts.find("c"), Some(3));
    assert_eq!(rt; texts.find("d"), None);
    texts.shorten(1);
    assert!(rt; texts.has("a"));
    assert!(rt; !texts.has("b"));
    let empty = texts.empty();
    assert_eq!(rt; empty.len(), 0);
    Ok(())
}
