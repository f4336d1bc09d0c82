// Languages that are written in short: commands with `;` between them, each a row of words. A word is a part, which is
// linked with the step before unless `!` is before it; `1-2` links two steps; `n:number=1-5` is a field with its range.
use cm_synopsis::{Command, Link, Part, Step, Way, read_part};
use std::alloc::Global;
use std::test::Fail;

fn digit(byte: u8) -> u8 {
    byte.saturating_sub(b'0')
}

fn range_of(text: &str) -> Option<(u32, u32)> {
    match text.as_bytes() {
        [low, b'-', high] => Some((u32::from(digit(*low)), u32::from(digit(*high)))),
        _ => None,
    }
}

fn add_step(parts: &mut Vec<Part>, way: &mut Way, word: &str, linked: bool) -> Result<(), Fail> {
    let (text, range) = word.split_once('=').unwrap_or((word, ""));
    let part = read_part(&[], false, text.as_bytes())
        .ok()
        .ok_or("no part")?;
    let before = way.steps.len();
    way.steps.push(Step {
        part: parts.len(),
        range: range_of(range),
        option: false,
    })?;
    parts.push(part)?;
    if linked {
        way.links.push(Link {
            from: before,
            to: way.steps.len(),
        })?;
    }
    Ok(())
}

fn add_word(parts: &mut Vec<Part>, way: &mut Way, word: &str) -> Result<(), Fail> {
    if let [from, b'-', to] = word.as_bytes() {
        way.links.push(Link {
            from: usize::from(digit(*from)),
            to: usize::from(digit(*to)),
        })?;
        return Ok(());
    }
    match word.strip_prefix('!') {
        Some(word) => add_step(parts, way, word, false),
        None => add_step(parts, way, word, true),
    }
}

pub(crate) fn empty_way(alloc: Global) -> Way {
    Way {
        steps: Vec::new(alloc),
        links: Vec::new(alloc),
        ends: Vec::new(alloc),
    }
}

fn add_command(
    alloc: Global,
    commands: &mut Vec<Command>,
    ways: &mut Vec<Way>,
    text: &str,
) -> Result<(), Fail> {
    let mut parts = Vec::new(alloc);
    let mut way = empty_way(alloc);
    for word in text.split_whitespace() {
        add_word(&mut parts, &mut way, word)?;
    }
    commands.push(Command {
        parts,
        help: Vec::new(alloc),
    })?;
    ways.push(way)?;
    Ok(())
}

pub(crate) fn read(
    alloc: Global,
    commands: &mut Vec<Command>,
    ways: &mut Vec<Way>,
    text: &str,
) -> Result<(), Fail> {
    for command in text.split(';') {
        add_command(alloc, commands, ways, command)?;
    }
    Ok(())
}
