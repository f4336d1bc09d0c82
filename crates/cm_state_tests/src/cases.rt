// How cases are written.
use cm_blocks::{Ending, Fault, Open};
use cm_fields::Code;
use cm_io::MemSink;
use cm_line::Line;
use cm_text::is_text;
use std::alloc::Global;
use std::process::Abort;
use std::test::Fail;

// A text with each of its parts in brackets so many times.
pub(crate) fn repeat(alloc: Global, text: &str, times: usize) -> Result<String, Fail> {
    let mut whole = String::new(alloc);
    for part in text.split('[') {
        append(&mut whole, part, times)?;
    }
    Ok(whole)
}

// Appends a part, whose front up to a bracket stands so many times.
fn append(whole: &mut String, part: &str, times: usize) -> Result<(), Fail> {
    let Some((unit, rest)) = part.split_once(']') else {
        return Ok(whole.push_str(part)?);
    };
    for _ in 0..times {
        whole.push_str(unit)?;
    }
    Ok(whole.push_str(rest)?)
}

// The three parts of a case, of which the first is a number.
pub(crate) fn numbered(case: &str) -> Option<(u16, &str, &str)> {
    let (number, rest) = case.split_once('|')?;
    let (text, wanted) = rest.split_once('|')?;
    Some((number.parse().ok()?, text, wanted))
}

// The three parts of a case, of which the first is an ending.
pub(crate) fn ended(case: &str) -> Option<(Ending, &str, &str)> {
    let (place, rest) = case.split_once('|')?;
    let (text, wanted) = rest.split_once('|')?;
    Some((ending(place)?, text, wanted))
}

// An ending: `NODE.BLOCK@PLACE` where blocks wait, `NODE@PLACE` in a comment, `done`, or the name of a code for a fault
// at the place 0 of node 0.
fn ending(text: &str) -> Option<Ending> {
    match text {
        "done" => Some(Ending::Done),
        "NotKeyword" => Some(fault(Code::NotKeyword)),
        "TooMany" => Some(fault(Code::TooMany)),
        _ => Some(Ending::Open(open(text)?)),
    }
}

fn fault(code: Code) -> Ending {
    Ending::Fault(Fault {
        code,
        node: 0,
        at: 0,
    })
}

fn open(text: &str) -> Option<Open> {
    let (blocks, at) = text.split_once('@')?;
    let (node, block) = blocks.split_once('.').unwrap_or((blocks, ""));
    Some(Open {
        node: node.parse().ok()?,
        block: block.parse().ok(),
        at: at.parse().ok()?,
    })
}

// The text that a sink was given.
pub(crate) fn text_of(alloc: Global, sink: &MemSink) -> Result<String, Fail> {
    Ok(String::from_str(alloc, str::from_utf8(sink.bytes())?)?)
}

// A line of these bytes.
pub(crate) fn line(rt: &impl Abort, text: &str) -> Line {
    let mut line = Line::new();
    for byte in text.bytes() {
        assert!(rt; is_text(byte), "{byte} is no text byte");
        assert!(rt; line.push(byte), "the line is full");
    }
    line
}
