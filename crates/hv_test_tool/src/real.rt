// The real files and streams, which tell no bytes to contracts.
use crate::running::words_of;
use hv_driver::{Status, alone};
use hv_ports::{FileSource, MemSink, Sink, Source, StdSink};
use std::fs;
use std::test::Fail;

#[test]
fn standard_input_is_empty_in_a_test(rt: HostRuntime) -> Result<(), Fail> {
    let mut source = FileSource::new(&rt);
    let start = source.start(String::from_str(rt.alloc(), "-")?);
    assert!(rt; start.is_ok());
    let mut buf = [0u8; 4];
    assert_eq!(rt; source.read(&mut buf), Ok(0));
    Ok(())
}

#[test]
fn a_file_that_is_not_there_is_a_source_fault(rt: HostRuntime) -> Result<(), Fail> {
    let alloc = rt.alloc();
    for name in ["no/such/file.hv", "/"] {
        let words = words_of(alloc, &["run", name])?;
        let mut sink = MemSink::new(alloc, 100)?;
        let status = alone(alloc, &words, &mut FileSource::new(&rt), &mut sink);
        assert_eq!(rt; status, Status::SourceFault, "of {name}");
        assert_eq!(rt; sink.bytes().len(), 0, "of {name}");
    }
    Ok(())
}

#[test]
fn a_real_file_is_read_to_its_end(rt: HostRuntime) -> Result<(), Fail> {
    let alloc = rt.alloc();
    fs::write(&rt, "real.hv", "fun main() { print(1 + 2) }")?;
    let words = words_of(alloc, &["run", "real.hv"])?;
    let mut sink = MemSink::new(alloc, 100)?;
    let status = alone(alloc, &words, &mut FileSource::new(&rt), &mut sink);
    fs::remove_file(&rt, "real.hv")?;
    assert_eq!(rt; status, Status::Done);
    assert_eq!(rt; sink.bytes(), b"3\n".as_slice());
    Ok(())
}

#[test]
fn standard_output_takes_a_line(rt: HostRuntime) {
    let mut sink = StdSink::new(&rt);
    assert!(rt; sink.write(b"one line\n").is_ok());
    assert_eq!(rt; sink.write(b""), Ok(0));
}
