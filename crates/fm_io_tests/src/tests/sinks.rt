use crate::tests::compared::same;
use crate::tests::files::TEXT;
use fm_io::{
    Fault, FreeGate, Gate, HostSink, MemSink, Sink, SureSink, send_piece, send_rest, write_text,
};
use std::alloc::{AllocError, AllocGlobal, Global};
use std::fs::File;
use std::io::{self, Write};
use std::process::Abort;
use std::test::Fail;

/// A sink whose write of this number fails, and each takes at most so many bytes.
fn sink(alloc: Global, failing: u64, most: usize) -> Result<MemSink, AllocError> {
    let failing = vec![in alloc; failing]?;
    Ok(MemSink::new(alloc, failing).with_piece(most.max(1)))
}

#[test]
fn a_listed_write_fails_alone(rt: HostRuntime) -> Result<(), Fail> {
    let mut out = sink(rt.alloc(), 1, 2)?;
    same(&rt, out.write(b"abc"), Ok(2));
    same(&rt, out.write(b"abc"), Err(Fault::Failed));
    same(&rt, out.write(b"abc"), Ok(2));
    same(&rt, out.written(), b"abab");
    Ok(())
}

#[test]
fn a_text_is_written_whole(rt: HostRuntime) {
    let mut sure = SureSink::new(rt.alloc());
    same(&rt, write_text(&mut sure, TEXT), Ok(()));
    same(&rt, sure.written(), TEXT);
}

/// Compares what stands in a sink that fails at this write, and takes a byte in each, with so many bytes of the text.
fn writes<R: Abort + AllocGlobal>(rt: &R, failing: usize, wanted: Result<(), Fault>) {
    let mut out = sink(rt.alloc(), failing as u64, 1).expect(rt, "memory");
    same(rt, (write_text(&mut out, TEXT), failing), (wanted, failing));
    same(
        rt,
        (out.written(), failing),
        (&TEXT[..failing.min(TEXT.len())], failing),
    );
}

#[test]
fn after_a_fault_a_prefix_of_the_text_is_written(rt: HostRuntime) {
    for failing in 0..TEXT.len() {
        writes(&rt, failing, Err(Fault::Failed));
    }
    writes(&rt, TEXT.len(), Ok(()));
}

/// A writer that takes one byte of each write, if it is the next that it waits for.
#[derive(Drop)]
struct OneByte<'a> {
    left: &'a [u8],
}

impl Write for OneByte<'_> {
    fn write(&mut self, buf: &[u8]) -> io::Result<usize> {
        match (buf, self.left) {
            ([byte, ..], [next, rest @ ..]) if byte == next => {
                self.left = rest;
                Ok(1)
            }
            _ => Ok(0),
        }
    }

    fn flush(&mut self) -> io::Result<()> {
        Ok(())
    }
}

/// Compares what comes of the text where a writer takes these bytes, one by one.
fn is_taken<R: Abort>(rt: &R, left: &[u8], wanted: Result<(), Fault>) {
    let mut out = HostSink::new(OneByte { left });
    same(rt, (write_text(&mut out, TEXT), left), (wanted, left));
}

#[test]
fn a_host_sink_writes_on_where_a_writer_takes_one_byte(rt: HostRuntime) {
    is_taken(&rt, TEXT, Ok(()));
    is_taken(&rt, b"sev", Err(Fault::Failed));
}

#[test]
fn a_host_sink_that_takes_nothing_fails(rt: HostRuntime) -> Result<(), Fail> {
    let mut full = HostSink::new(File::create(&rt, "/dev/full")?);
    same(&rt, full.write(TEXT), Err(Fault::Failed));
    Ok(())
}

/// Compares how many bytes are written with what is wanted, and what pends.
fn pends<R: Abort>(rt: &R, out: &MemSink, text: &str, count: usize, pending: &str) {
    same(rt, out.written().len(), count);
    same(rt, text, pending);
}

/// Sends a text that is short, then long, then short again, where the second write fails.
fn send<R: Abort>(
    rt: &R,
    out: &mut MemSink,
    text: &mut String,
    long: &str,
) -> Result<(), AllocError> {
    same(rt, send_piece(out, text), Ok(()));
    pends(rt, out, text, 0, "short");

    text.push_str(long)?;
    same(rt, send_piece(out, text), Ok(()));
    pends(rt, out, text, 70_005, "");

    text.push('.')?;
    same(rt, send_rest(out, text), Err(Fault::Failed));
    same(rt, send_rest(out, text), Ok(()));
    pends(rt, out, text, 70_006, "");
    Ok(())
}

#[test]
fn a_long_text_is_sent_in_pieces(rt: HostRuntime) -> Result<(), Fail> {
    let alloc = rt.alloc();
    let long = " ".repeat(alloc, 70_000)?;
    let mut text = String::from_str(alloc, "short")?;
    send(&rt, &mut sink(alloc, 1, usize::MAX)?, &mut text, &long)?;
    Ok(())
}

#[test]
fn the_free_gate_holds_nobody(rt: HostRuntime) {
    FreeGate.before(&rt, 1, 0);
    FreeGate.after(1, 0);
}
