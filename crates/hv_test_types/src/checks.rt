use hv_check::{CheckEnd, check};
use hv_tree::{Edition, Refusal, Rule};
use std::test::Fail;

#[test]
fn a_source_is_accepted_or_refused_at_its_place(rt: HostRuntime) -> Result<(), Fail> {
    let alloc = rt.alloc();
    assert!(rt; check(alloc, b"fun main() { print(1) }", Edition::One).is_ok());
    let rows: [(&[u8], Rule, u32); 8] = [
        (b"fun main() { print(1 2 @) }", Rule::P1, 21),
        (b"fun main() { print(1 @) }", Rule::L2, 21),
        (b"fun main() {", Rule::P1, 12),
        (b"fun main() { print(9223372036854775808) }", Rule::L3, 19),
        (b"", Rule::N3, 0),
        (b"fun main() { print(y) }", Rule::N2, 19),
        (b"fun main() { print(true + 1) print(y) }", Rule::N2, 35),
        (b"fun main() { print(true + 1) }", Rule::T1, 19),
    ];
    for (source, rule, start) in rows {
        assert!(rt; source.len() < 100);
        match check(alloc, source, Edition::One) {
            Err(CheckEnd::Refused(Refusal { rule: found, place })) => {
                assert_eq!(rt; found, rule, "of {source:?}");
                assert_eq!(rt; place.start, start, "of {source:?}");
            }
            _ => panic!(rt; "{source:?} isn't refused"),
        }
    }
    Ok(())
}
