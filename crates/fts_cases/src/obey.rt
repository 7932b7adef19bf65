//! The lines of a case, one at a time.

use crate::ask::ask;
use crate::change::{bytes_of, change, faulty, limit};
use crate::device::Device;
use crate::program::call;
use crate::script::Script;
use crate::world::World;
use std::alloc::{AllocError, Global};

/// What a line of a case comes to.
pub fn obey(alloc: Global, world: &mut World, line: &str) -> Result<String, AllocError> {
    if let Some(text) = line.strip_prefix('>') {
        world
            .script
            .put_line(text.strip_prefix(' ').unwrap_or(text))?;
        return Ok(String::new(alloc));
    }
    if let Some(words) = line.strip_prefix('$') {
        return call(alloc, world, words);
    }
    let words: Vec<&str> = line.split_whitespace().collect(alloc)?;
    match words.as_slice() {
        ["case", name] => {
            *world = World::new(alloc)?;
            format!(in alloc; "case {name}\n")
        }
        words => said(alloc, obey_words(alloc, world, words)?),
    }
}

/// The answer, or that the line is none of a case.
fn said(alloc: Global, answer: Option<String>) -> Result<String, AllocError> {
    match answer {
        Some(text) => Ok(text),
        None => String::from_str(alloc, "no such line\n"),
    }
}

fn obey_words(
    alloc: Global,
    world: &mut World,
    words: &[&str],
) -> Result<Option<String>, AllocError> {
    match words {
        ["hold"] => {
            world.rows.is_held = true;
            world.index.is_held = true;
            Ok(Some(String::new(alloc)))
        }
        ["fold"] => {
            world.is_folded = true;
            Ok(Some(String::new(alloc)))
        }
        ["clear" | "again" | "text" | "times" | "each", ..] => {
            quiet(alloc, put(alloc, &mut world.script, words)?)
        }
        ["limit", name, number] => quiet(alloc, limit(world, name, number)),
        ["fail", "source", call, most] => {
            world.source = faulty(call, most);
            Ok(Some(String::new(alloc)))
        }
        ["fail", "sink", call, most] => {
            world.sink = faulty(call, most);
            Ok(Some(String::new(alloc)))
        }
        [_, "rows", ..] => on_device(alloc, &mut world.rows, words),
        [_, "index", ..] => on_device(alloc, &mut world.index, words),
        _ => Ok(None),
    }
}

/// No output where the line was done.
fn quiet(alloc: Global, done: bool) -> Result<Option<String>, AllocError> {
    if done {
        return Ok(Some(String::new(alloc)));
    }
    Ok(None)
}

fn on_device(
    alloc: Global,
    device: &mut Device,
    words: &[&str],
) -> Result<Option<String>, AllocError> {
    if change(alloc, device, words)? {
        return Ok(Some(String::new(alloc)));
    }
    ask(alloc, device, words)
}

/// Puts what isn't one line behind the script. Returns whether the words ask for that.
fn put(alloc: Global, script: &mut Script, words: &[&str]) -> Result<bool, AllocError> {
    match words {
        ["clear"] => {
            script.clear();
            Ok(true)
        }
        ["again", number] => match number.parse::<usize>() {
            Ok(number) => script.again(alloc, number),
            Err(_) => Ok(false),
        },
        ["text", text] => {
            script.put(&bytes_of(alloc, text)?)?;
            Ok(true)
        }
        ["times", count, text] => match count.parse::<u64>() {
            Ok(count) => {
                script.put_times(count, &bytes_of(alloc, text)?)?;
                Ok(true)
            }
            Err(_) => Ok(false),
        },
        ["each", first, last, text] => match (first.parse::<u64>(), last.parse::<u64>()) {
            (Ok(first), Ok(last)) => {
                let line = bytes_of(alloc, text)?;
                script.put_each(alloc, first, last, &line)?;
                Ok(true)
            }
            _ => Ok(false),
        },
        _ => Ok(false),
    }
}
