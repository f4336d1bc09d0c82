// Standard error, as the log of a program is put to it.
use cm_io::{MemSink, Put, Sink, StdLog, Writer};
use std::test::Fail;

// One byte more than the log holds.
const TOO_LONG: u32 = 4_097;

// What a sink answers where these pieces are put one after another.
fn put_all<S: Sink>(pieces: &[&[u8]], sink: &mut S) -> Put {
    let mut out = Writer::new(sink);
    for piece in pieces {
        out.put(piece);
    }
    out.finish()
}

#[test]
fn standard_error(rt: HostRuntime) -> Result<(), Fail> {
    let mut long = MemSink::new(rt.alloc(), TOO_LONG)?;
    let mut out = Writer::new(&mut long);
    out.put_times(TOO_LONG, b" ");
    assert_eq!(rt; out.finish(), Put::Done);
    let mut log = StdLog::new(&rt);
    assert_eq!(rt; log.put(b""), Put::Done, "no bytes");
    assert_eq!(rt; put_all(&[b"held ", b"and written\n"], &mut log), Put::Done);
    assert_eq!(rt; put_all(&[b"a line at once\n"], &mut log), Put::Done);
    assert_eq!(rt;
        put_all(&[long.bytes(), b"\n"], &mut log),
        Put::Done,
        "too long to hold"
    );
    assert_eq!(rt;
        put_all(&[b"held ", long.bytes(), b"\n"], &mut log),
        Put::Done
    );
    Ok(())
}
