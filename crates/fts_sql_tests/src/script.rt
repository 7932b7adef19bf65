use fts_io::{LONGEST_LINE, MemSource};
use fts_script::{
    Group, GroupError, MOST_LINES, Script, ScriptError, group_lines, merge_replies, read_script,
};
use std::alloc::{AllocError, Global};

/// Lines of sessions 1, 2 and 7, a blank one and a comment.
const SCRIPT: &[u8] = b"BEGIN\n2: BEGIN\n\n7: SYNC\n 2 : COMMIT\n-- 7: SYNC\nCOMMIT";

fn read(alloc: Global, text: Vec<u8>) -> Result<Script, ScriptError> {
    read_script(alloc, &mut MemSource::new(text, Vec::new(alloc)))
}

fn read_slice(alloc: Global, text: &[u8]) -> Result<Script, AllocError> {
    match read(alloc, Vec::from_slice(alloc, text)?) {
        Ok(script) => Ok(script),
        Err(_) => Err(AllocError),
    }
}

/// The groups as text, with their places.
fn shown(alloc: Global, groups: &[Group]) -> Result<String, AllocError> {
    let mut text = String::new(alloc);
    for group in groups {
        text.push_str(&format!(in alloc; "{}:", group.number)?)?;
        for place in &group.places {
            text.push_str(&format!(in alloc; " {place}")?)?;
        }
        text.push_str(";")?;
    }
    Ok(text)
}

fn are_grouped(alloc: Global, script: &Script, wanted: &str) -> Result<bool, AllocError> {
    match group_lines(alloc, script) {
        Ok(groups) => Ok(shown(alloc, &groups)?.as_str() == wanted),
        Err(_) => Ok(false),
    }
}

fn sessions_are_interleaved(alloc: Global) -> Result<bool, AllocError> {
    let script = read_slice(alloc, SCRIPT)?;
    are_grouped(alloc, &script, "1: 0 6;2: 1 4;7: 3;")
}

fn the_empty_script_has_no_group(alloc: Global) -> Result<bool, AllocError> {
    let script = read_slice(alloc, b"")?;
    are_grouped(alloc, &script, "")
}

// A line that is too long, and one of session 2.
fn a_long_line_is_of_session_1(alloc: Global) -> Result<bool, AllocError> {
    let mut text = vec![in alloc; b'x'; LONGEST_LINE + 1]?;
    text.extend_from_slice(b"\n2: SYNC\n")?;
    let script = read_slice(alloc, &text)?;
    are_grouped(alloc, &script, "1: 0;2: 1;")
}

#[test]
fn lines_are_grouped_by_sessions(rt: HostRuntime) -> Result<(), AllocError> {
    assert!(rt; sessions_are_interleaved(rt.alloc())?);
    assert!(rt; the_empty_script_has_no_group(rt.alloc())?);
    assert!(rt; a_long_line_is_of_session_1(rt.alloc())?);
    Ok(())
}

// Session 2 gives one reply less than it has lines.
fn are_merged(alloc: Global) -> Result<bool, AllocError> {
    let script = read_slice(alloc, SCRIPT)?;
    let Ok(groups) = group_lines(alloc, &script) else {
        return Ok(false);
    };
    let mut replies = Vec::new(alloc);
    replies.push(Vec::from_slice(alloc, &[10u32, 16])?)?;
    replies.push(Vec::from_slice(alloc, &[21])?)?;
    replies.push(Vec::from_slice(alloc, &[73])?)?;
    let all = merge_replies(alloc, &script, &groups, replies)?;
    let wanted = [Some(10), Some(21), None, Some(73), None, None, Some(16)];
    Ok(all.as_slice() == wanted.as_slice())
}

#[test]
fn replies_are_in_the_order_of_lines(rt: HostRuntime) -> Result<(), AllocError> {
    assert!(rt; are_merged(rt.alloc())?);
    Ok(())
}

// A script with a line of each session up to this one.
fn are_so_many(alloc: Global, count: u32) -> Result<Option<GroupError>, AllocError> {
    let mut text = Vec::new(alloc);
    for number in 0..count {
        text.extend_from_slice(format!(in alloc; "{}: SYNC\n", number + 1)?.as_bytes())?;
    }
    let script = read_slice(alloc, &text)?;
    Ok(group_lines(alloc, &script).err())
}

#[test]
fn a_17th_session_is_refused(rt: HostRuntime) -> Result<(), AllocError> {
    assert!(rt; are_so_many(rt.alloc(), 16)?.is_none());
    let seventeenth = GroupError::TooManySessions { session: 17 };
    assert!(rt; are_so_many(rt.alloc(), 18)? == Some(seventeenth));
    Ok(())
}

// How a script of so many blank lines is read.
fn blank_lines(alloc: Global, count: usize) -> Result<Result<usize, ScriptError>, AllocError> {
    let text = vec![in alloc; b'\n'; count]?;
    match read(alloc, text) {
        Ok(script) => Ok(Ok(script.lines().len())),
        Err(error) => Ok(Err(error)),
    }
}

#[test]
fn a_line_more_than_100_000_is_refused(rt: HostRuntime) -> Result<(), AllocError> {
    assert!(rt; blank_lines(rt.alloc(), MOST_LINES)? == Ok(MOST_LINES));
    let refused = ScriptError::ScriptTooLong {
        lines: 100_001,
        bytes: 100_002,
    };
    assert!(rt; blank_lines(rt.alloc(), MOST_LINES + 2)? == Err(refused));
    Ok(())
}

// The second read of the source fails.
fn fails(alloc: Global) -> Result<bool, AllocError> {
    let text = Vec::from_slice(alloc, SCRIPT)?;
    let mut source = MemSource::new(text, Vec::from_slice(alloc, &[2])?).giving(20);
    let error = read_script(alloc, &mut source).err();
    Ok(error == Some(ScriptError::ReadFault) && (source.faults(), source.refused()) == (1, 0))
}

#[test]
fn a_read_fault_is_told(rt: HostRuntime) -> Result<(), AllocError> {
    assert!(rt; fails(rt.alloc())?);
    Ok(())
}
