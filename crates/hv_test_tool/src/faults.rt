// Short reads and writes, and sources and sinks that fail at each place.
use crate::running::{source_of, words_of};
use crate::trickle::Trickle;
use hv_driver::{Status, alone};
use std::test::Fail;

const PROGRAM: &[u8] = b"fun main() { print(1) }";

// A call that is never made.
const NEVER: u64 = 100;

// Each row: how many bytes of the program the file has, how many a read gives, which call of the
// source fails (the start is call 0), how many bytes a write takes, how many the sink takes in all,
// and what comes of it.
#[test]
fn short_reads_writes_and_faults_have_their_status_and_text(rt: HostRuntime) -> Result<(), Fail> {
    let alloc = rt.alloc();
    let rows: [(usize, usize, u64, usize, usize, Status, &[u8]); 17] = [
        (23, 1, NEVER, 9, 9, Status::Done, b"1\n"),
        (23, 2, NEVER, 9, 9, Status::Done, b"1\n"),
        (23, 7, NEVER, 9, 9, Status::Done, b"1\n"),
        (
            16,
            7,
            NEVER,
            99,
            99,
            Status::Refused,
            b"refused P1 at 1:17\n",
        ),
        (2, 1, NEVER, 99, 99, Status::Refused, b"refused P1 at 1:1\n"),
        (23, 7, 0, 9, 9, Status::SourceFault, b""),
        (23, 7, 1, 9, 9, Status::SourceFault, b""),
        (23, 7, 2, 9, 9, Status::SourceFault, b""),
        (23, 7, 3, 9, 9, Status::SourceFault, b""),
        (23, 7, 4, 9, 9, Status::SourceFault, b""),
        (23, 7, 5, 9, 9, Status::SourceFault, b""),
        (23, 7, 6, 9, 9, Status::Done, b"1\n"),
        (23, 7, NEVER, 1, 9, Status::Done, b"1\n"),
        (23, 7, NEVER, 9, 0, Status::SinkFault, b""),
        (23, 7, NEVER, 9, 1, Status::SinkFault, b"1"),
        (23, 7, NEVER, 9, 2, Status::Done, b"1\n"),
        (23, 7, NEVER, 1, 1, Status::SinkFault, b"1"),
    ];
    for (end, most, call, taken, limit, status, written) in rows {
        let words = words_of(alloc, &["run", "F"])?;
        let mut source = source_of(alloc, &PROGRAM[..end], vec![in alloc; call]?, most)?;
        let mut sink = Trickle {
            bytes: Vec::new(alloc),
            most: taken,
            limit,
            faults: 0,
        };
        assert_eq!(rt;
            alone(alloc, &words, &mut source, &mut sink),
            status,
            "of {end} bytes by {most}, call {call}, {taken} of {limit} a write"
        );
        assert_eq!(rt; sink.bytes.as_slice(), written);
    }
    Ok(())
}
