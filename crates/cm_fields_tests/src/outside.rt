// Each object once, through the bounds by which programs use it.
use cm_io::{
    Clock, CountSink, Got, Host, Loaded, MemClock, MemHost, MemSink, MemSource, Put, Sink, Source,
    StdClock, StdErrorSink, StdHost, StdSink, StdSource, Writer, put_decimal, put_hex, put_line,
};
use cm_io_tests::Counted;
use std::alloc::Global;
use std::cell::Cell;
use std::test::Fail;
use std::{env, fs};

fn get_three<S: Source>(source: &mut S) -> [Got; 3] {
    [source.get(), source.get(), source.get()]
}

fn put_two<S: Sink>(sink: &mut S, first: &[u8], second: &[u8]) -> [Put; 2] {
    [sink.put(first), sink.put(second)]
}

fn three_moments<C: Clock>(clock: &mut C) -> [u64; 3] {
    [clock.now(), clock.now(), clock.now()]
}

// What create, write and close answer. Where create fails, nothing is written.
fn save<H: Host>(host: &mut H, name: &str, bytes: &[u8]) -> [Put; 3] {
    match host.create(name) {
        Put::Failed => [Put::Failed; 3],
        Put::Done => [Put::Done, host.write(bytes), host.close()],
    }
}

// What loading a file of at most five bytes gives.
fn load_five<'a, H: Host>(host: &mut H, alloc: Global, name: &str) -> Loaded {
    host.load(alloc, name, 5)
}

// Whether these are the bytes that were loaded.
fn has(loaded: &Loaded, wanted: &[u8]) -> bool {
    match loaded {
        Loaded::Bytes(bytes) => bytes.as_slice() == wanted,
        _ => false,
    }
}

#[test]
fn memory_source(rt: HostRuntime) -> Result<(), Fail> {
    let mut source = MemSource::new(rt.alloc(), b"ab", Some(1))?;
    assert_eq!(rt;
        get_three(&mut source),
        [Got::Byte(b'a'), Got::Failed, Got::Byte(b'b')]
    );
    assert_eq!(rt; get_three(&mut source), [Got::End; 3]);
    Ok(())
}

#[test]
fn memory_sink(rt: HostRuntime) -> Result<(), Fail> {
    let mut sink = MemSink::new(rt.alloc(), 5)?;
    assert_eq!(rt;
        put_two(&mut sink, b"abc", b"def"),
        [Put::Done, Put::Failed]
    );
    assert_eq!(rt; sink.bytes(), b"abcde".as_slice());
    Ok(())
}

#[test]
fn counting_sink(rt: HostRuntime) {
    let mut sink = CountSink::new();
    assert_eq!(rt; put_two(&mut sink, b"abc", b"def"), [Put::Done; 2]);
    assert_eq!(rt; sink.count(), 6);
}

#[test]
fn memory_clock(rt: HostRuntime) -> Result<(), Fail> {
    let mut clock = MemClock::new(rt.alloc(), &[7, 9])?;
    assert_eq!(rt; three_moments(&mut clock), [7, 9, 9]);
    let mut stopped = MemClock::new(rt.alloc(), &[])?;
    assert_eq!(rt; three_moments(&mut stopped), [0; 3]);
    Ok(())
}

#[test]
fn memory_host(rt: HostRuntime) -> Result<(), Fail> {
    let mut host = MemHost::new(rt.alloc(), "in", Some(b"old"), 4, &[0, 5])?;
    assert_eq!(rt; save(&mut host, "out", b"new"), [Put::Failed; 3], "call 0");
    assert_eq!(rt; host.output(), None);
    assert_eq!(rt;
        save(&mut host, "out", b"new"),
        [Put::Done; 3],
        "calls 1 to 3"
    );
    assert_eq!(rt; host.output() == Some(b"new".as_slice()), true);
    assert_eq!(rt;
        save(&mut host, "out", b"x"),
        [Put::Done, Put::Failed, Put::Done],
        "calls 4 to 6"
    );
    assert_eq!(rt; host.file("out") == Some(b"".as_slice()), true);
    assert_eq!(rt;
        save(&mut host, "out", b"large"),
        [Put::Done, Put::Failed, Put::Done],
        "past the room"
    );
    assert_eq!(rt; host.file("out") == Some(b"larg".as_slice()), true);
    assert_eq!(rt; host.file("in") == Some(b"old".as_slice()), true);
    assert_eq!(rt; save(&mut host, "other", b"new"), [Put::Failed; 3]);
    assert_eq!(rt; host.file("other"), None);
    Ok(())
}

#[test]
fn loading_from_memory(rt: HostRuntime) -> Result<(), Fail> {
    let alloc = rt.alloc();
    let mut host = MemHost::new(alloc, "in", Some(b"12345"), 6, &[1])?;
    assert!(rt; has(&load_five(&mut host, alloc, "in"), b"12345"), "call 0");
    assert!(rt;
        matches!(load_five(&mut host, alloc, "in"), Loaded::Failed),
        "call 1"
    );
    assert!(rt; matches!(load_five(&mut host, alloc, "out"), Loaded::Absent));
    assert_eq!(rt; save(&mut host, "out", b"123456"), [Put::Done; 3]);
    assert!(rt; matches!(load_five(&mut host, alloc, "out"), Loaded::TooLarge));
    assert!(rt; has(&load_five(&mut host, alloc, "in"), b"12345"), "again");
    Ok(())
}

fn put_three<S: Sink>(piece: &[u8], sink: &mut S) -> Put {
    let mut out = Writer::new(sink);
    out.put_times(3, piece);
    out.finish()
}

#[test]
fn often_used_pieces(rt: HostRuntime) -> Result<(), Fail> {
    let mut sink = MemSink::new(rt.alloc(), 100)?;
    assert_eq!(rt; put_decimal(0, &mut sink), Put::Done);
    assert_eq!(rt; put_decimal(18446744073709551615, &mut sink), Put::Done);
    assert_eq!(rt; put_hex(0x0a, &mut sink), Put::Done);
    assert_eq!(rt; put_hex(0xf9, &mut sink), Put::Done);
    assert_eq!(rt; put_three(b"-+", &mut sink), Put::Done);
    assert_eq!(rt; put_line(b"ab", &mut sink), Put::Done);
    assert_eq!(rt;
        sink.bytes(),
        b"0184467440737095516150af9-+-+-+ab\r\n".as_slice()
    );
    Ok(())
}

// Puts 100 rows of 20 bytes, each in three pieces.
fn put_rows<S: Sink>(sink: &mut S) -> Put {
    let mut out = Writer::new(sink);
    for _ in 0..100 {
        out.put(b"  ");
        out.put_line(b"sixteen bytes ..");
    }
    out.finish()
}

// 2,000 bytes are seven pages of 256 and a part of one.
#[test]
fn a_reply_is_put_a_page_at_a_time(rt: HostRuntime) {
    let calls = Cell::new(0);
    let mut sink = Counted {
        held: CountSink::new(),
        calls: &calls,
    };
    assert_eq!(rt; put_rows(&mut sink), Put::Done);
    assert_eq!(rt; calls.get(), 8);
}

#[test]
fn standard_streams(rt: HostRuntime) {
    assert_ne!(rt; StdSource::new(&rt).get(), Got::Failed);
    assert_ne!(rt; StdSource::single(&rt).get(), Got::Failed);
    assert_eq!(rt;
        put_two(&mut StdSink::new(&rt), b"standard ", b"output\n"),
        [Put::Done; 2]
    );
    assert_eq!(rt;
        put_two(&mut StdErrorSink::new(&rt), b"standard ", b"error\n"),
        [Put::Done; 2]
    );
}

#[test]
fn system_clock(rt: HostRuntime) {
    let [first, _, last] = three_moments(&mut StdClock { rt });
    assert!(rt; first > 1577836800, "after 2020");
    assert!(rt; first <= last);
}

#[test]
fn system_files(rt: HostRuntime) -> Result<(), Fail> {
    let folder = env::temp_dir(&rt)?;
    let path = folder.as_path().join(rt.alloc(), "cm_io_system_files")?;
    let Some(name) = path.as_path().to_str() else {
        return Err(Fail::from("the name of the temporary folder is no text"));
    };
    let mut host = StdHost::new(&rt);
    assert_eq!(rt; save(&mut host, name, b"first and long"), [Put::Done; 3]);
    assert_eq!(rt; save(&mut host, name, b"second"), [Put::Done; 3]);
    assert_eq!(rt; fs::read(&rt, name)?.as_slice(), b"second".as_slice());
    let alloc = rt.alloc();
    assert!(rt; matches!(load_five(&mut host, alloc, name), Loaded::TooLarge));
    assert_eq!(rt; save(&mut host, name, b"five5"), [Put::Done; 3]);
    assert!(rt; has(&load_five(&mut host, alloc, name), b"five5"));
    fs::remove_file(&rt, name)?;
    assert!(rt; matches!(load_five(&mut host, alloc, name), Loaded::Absent));
    assert!(rt;
        matches!(load_five(&mut host, alloc, "/"), Loaded::Failed),
        "a folder"
    );
    assert_eq!(rt;
        save(&mut host, "/no such folder/file", b"x"),
        [Put::Failed; 3]
    );
    Ok(())
}
