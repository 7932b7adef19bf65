ghost use Rattle.std.specs.Prelude.{◌<◌};

use fts_io::{LONGEST_LINE, Lines, MemSink, MemSource, Next, Sink, WriteFault, write_whole};
use std::alloc::{AllocError, Global};

const SCRIPT: &[u8] = b"one\n\nthree\r\nfour";

/// Each answer of the reader as a line of text, up to `count` of them.
fn answers(
    alloc: Global,
    lines: &mut Lines,
    source: &mut MemSource,
    count: usize,
) -> Result<Vec<u8>, AllocError> {
    let mut text = Vec::new(alloc);
    for _ in 0..count {
        match lines.next_line(source) {
            Next::Line(bytes) => {
                text.push(b'[')?;
                text.extend_from_slice(&bytes)?;
                text.push(b']')?;
            }
            other => {
                let shown = format!(in alloc; "<{other}>")?;
                text.extend_from_slice(shown.as_bytes())?;
            }
        }
    }
    Ok(text)
}

// The lines of the script, of a source that gives at most so many bytes at once.
fn are_split(alloc: Global, most: usize) -> Result<bool, AllocError>
    requires { 0 < most }
{
    let script = Vec::from_slice(alloc, SCRIPT)?;
    let mut source = MemSource::new(script, Vec::new(alloc)).giving(most);
    let mut lines = Lines::new(alloc)?;
    let text = answers(alloc, &mut lines, &mut source, 6)?;
    let want = b"[one][][three\r][four]<end of the text><end of the text>";
    Ok(text.as_slice() == want.as_slice())
}

#[test]
fn lines_are_the_same_however_the_source_splits_them(rt: HostRuntime) -> Result<(), AllocError> {
    assert!(rt; are_split(rt.alloc(), 1)?);
    assert!(rt; are_split(rt.alloc(), 7)?);
    assert!(rt; are_split(rt.alloc(), 1_000)?);
    Ok(())
}

// A line of the greatest length, one that is longer by a byte, and one more.
fn long_lines(alloc: Global) -> Result<Vec<u8>, AllocError> {
    let mut text = vec![in alloc; b'x'; LONGEST_LINE]?;
    text.push(b'\n')?;
    let whole = text.clone()?;
    text.extend_from_slice(b"x")?;
    text.extend_from_slice(&whole)?;
    text.extend_from_slice(b"after")?;
    Ok(text)
}

fn is_skipped(alloc: Global) -> Result<bool, AllocError> {
    let mut source = MemSource::new(long_lines(alloc)?, Vec::new(alloc));
    let mut lines = Lines::new(alloc)?;
    let first = match lines.next_line(&mut source) {
        Next::Line(bytes) => bytes.len() == LONGEST_LINE,
        _ => false,
    };
    let text = answers(alloc, &mut lines, &mut source, 3)?;
    let want = b"<line 2 is too long>[after]<end of the text>";
    Ok(first && text.as_slice() == want.as_slice())
}

#[test]
fn a_line_above_the_limit_is_skipped_and_named(rt: HostRuntime) -> Result<(), AllocError> {
    assert!(rt; is_skipped(rt.alloc())?);
    Ok(())
}

fn goes_on(alloc: Global) -> Result<bool, AllocError> {
    let fails = Vec::from_slice(alloc, &[2])?;
    let mut source = MemSource::new(Vec::from_slice(alloc, SCRIPT)?, fails).giving(2);
    let mut lines = Lines::new(alloc)?;
    let text = answers(alloc, &mut lines, &mut source, 6)?;
    let want = b"<the source failed>[one][][three\r][four]<end of the text>";
    Ok(text.as_slice() == want.as_slice() && (source.faults(), source.refused()) == (1, 0))
}

#[test]
fn reading_goes_on_after_a_fault(rt: HostRuntime) -> Result<(), AllocError> {
    assert!(rt; goes_on(rt.alloc())?);
    Ok(())
}

// The fourth and the sixth write are to fail, and each takes at most three bytes.
fn is_written(alloc: Global) -> Result<bool, AllocError> {
    let mut sink = MemSink::new(alloc, Vec::from_slice(alloc, &[4, 6])?).taking(3);
    let good = [
        write_whole(&mut sink, b"abcdefgh"),
        write_whole(&mut sink, b""),
    ];
    let whole = sink.bytes() == b"abcdefgh".as_slice();
    let bad = [
        write_whole(&mut sink, b"ijkl"),
        write_whole(&mut sink, b"ijkl"),
    ];
    Ok(
        good == [Ok(()); 2]
            && whole
            && bad == [Err(WriteFault); 2]
            && sink.bytes() == b"abcdefghijk".as_slice()
            && (sink.faults(), sink.refused()) == (2, 0),
    )
}

#[test]
fn a_piece_is_written_whole_or_up_to_the_fault(rt: HostRuntime) -> Result<(), AllocError> {
    assert!(rt; is_written(rt.alloc())?);
    Ok(())
}
