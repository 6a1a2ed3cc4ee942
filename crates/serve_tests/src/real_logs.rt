// The log of a service over a stream.
use door_io::ReportLog;
use serve_edge::{LogOutput, PollBoard, StdoutLog, stamp};
use std::io;
use std::io::Read;
use std::os::fd::AsRawFd;
use std::os::unix::net::UnixStream;
use std::process::Abort;
use std::rt::Clock;
use std::test::Fail;
use std::time::Duration;

/// A machine whose time of day stands still.
#[derive(Drop)]
struct Still;

impl Clock for Still {
    fn monotonic(&self) -> io::Result<Duration> {
        Ok(Duration::ZERO)
    }

    fn since_1970(&self) -> io::Result<Duration> {
        Ok(Duration::from_millis(1_764_443_879_123))
    }

    fn sleep(&self, _duration: Duration) {}
}

/// The moment is written so.
fn is_written(rt: &impl Abort, since: Duration, want: &[u8]) {
    assert_eq!(rt; &stamp(since)[..], want);
}

#[test]
fn the_time_of_day_is_that_of_the_calendar(rt: HostRuntime) {
    is_written(&rt, Duration::ZERO, b"1970-01-01T00:00:00.000Z ");
    is_written(
        &rt,
        Duration::from_secs(951_782_400),
        b"2000-02-29T00:00:00.000Z ",
    );
    is_written(
        &rt,
        Duration::from_secs(1_709_251_199),
        b"2024-02-29T23:59:59.000Z ",
    );
    is_written(
        &rt,
        Duration::from_millis(1_764_443_879_123),
        b"2025-11-29T19:17:59.123Z ",
    );
    is_written(
        &rt,
        Duration::from_nanos(999_999),
        b"1970-01-01T00:00:00.000Z ",
    );
    is_written(&rt, Duration::MAX, b"9999-12-31T23:59:59.999Z ");
}

#[test]
fn lines_come_out_behind_their_time(rt: HostRuntime) -> Result<(), Fail> {
    let (mut reader, writer) = UnixStream::pair(&rt)?;
    let board = PollBoard::new(rt.alloc())?;
    let output = LogOutput::new(rt.alloc(), &board, writer.as_raw_fd())?;
    let still = Still;
    let mut log = StdoutLog::new(&still, &output);
    log.log(b"begin 1\n");
    log.log(b"end\n");
    log.finish();
    let mut into = [0; 128];
    let count = reader.read(&mut into)?;
    let want = b"2025-11-29T19:17:59.123Z begin 1\n2025-11-29T19:17:59.123Z end\n";
    assert_eq!(rt; &into[..count], &want[..]);
    assert_eq!(rt; log.dropped(), 0);
    Ok(())
}

#[test]
fn an_output_that_nobody_reads_drops_lines_and_does_not_wait(rt: HostRuntime) -> Result<(), Fail> {
    let (_reader, writer) = UnixStream::pair(&rt)?;
    let board = PollBoard::new(rt.alloc())?;
    let output = LogOutput::new(rt.alloc(), &board, writer.as_raw_fd())?;
    let still = Still;
    let mut log = StdoutLog::new(&still, &output);
    for _ in 0..1_000 {
        log.log(&[b'x'; 1_000]);
    }
    assert!(rt; log.dropped() > 0);
    assert!(rt; log.dropped() < 1_000);
    Ok(())
}

#[test]
fn an_output_that_is_closed_ends_nothing(rt: HostRuntime) -> Result<(), Fail> {
    let (reader, writer) = UnixStream::pair(&rt)?;
    drop(reader);
    let board = PollBoard::new(rt.alloc())?;
    let output = LogOutput::new(rt.alloc(), &board, writer.as_raw_fd())?;
    let still = Still;
    let mut log = StdoutLog::new(&still, &output);
    log.log(b"one\n");
    log.finish();
    log.log(b"two\n");
    assert_eq!(rt; log.dropped(), 1);
    Ok(())
}
