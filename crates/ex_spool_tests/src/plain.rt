// A plain reading of the pages of a file, beside the one that goes through the bytes once and takes no memory: first
// all lines, then all rows, then the pages.
ghost use Rattle.std.specs.Prelude.{◌<◌, ◌≤◌};
ghost use Rattle.ex_spool.specs.declared.row.TheConstants.{WIDEST_ROW};

use crate::notation::push_said;
use cm_io::{MemSink, Put, Writer};
use ex_spool::put_body;
use std::alloc::{AllocError, Global};
use std::test::Fail;

// A part of a file: where it begins, and where it ends.
#[derive(Clone, Copy)]
struct Part {
    start: usize,
    end: usize,
}

// The end of a line whose line feed is at this place: one carriage return before it is none of the line's.
fn line_end(bytes: &[u8], start: usize, at: usize) -> usize {
    if start < at && bytes.get(at - 1) == Some(&b'\r') {
        at - 1
    } else {
        at
    }
}

// The lines of a file: what is after the last line feed is one, if it is something.
fn lines_of(alloc: Global, bytes: &[u8]) -> Result<Vec<Part>, AllocError> {
    let mut lines = Vec::new(alloc);
    let mut start = 0;
    for at in 0..bytes.len() {
        if bytes[at] == b'\n' {
            let end = line_end(bytes, start, at);
            lines.push(Part { start, end })?;
            start = at + 1;
        }
    }
    if start < bytes.len() {
        let end = bytes.len();
        lines.push(Part { start, end })?;
    }
    Ok(lines)
}

// Adds the rows of a line: one at least, each full but the last.
fn push_rows(line: Part, width: usize, rows: &mut Vec<Part>) -> Result<(), AllocError>
    requires { 0 < width }
{
    let size = line.end.saturating_sub(line.start);
    for before in 0..(size.saturating_sub(1) / width).saturating_add(1) {
        let start = line.start.saturating_add(before.saturating_mul(width));
        let end = line.end.min(start.saturating_add(width));
        rows.push(Part { start, end })?;
    }
    Ok(())
}

fn rows_of(alloc: Global, lines: &[Part], width: usize) -> Result<Vec<Part>, AllocError>
    requires { 0 < width }
{
    let mut rows = Vec::new(alloc);
    for line in lines {
        push_rows(*line, width, &mut rows)?;
    }
    Ok(rows)
}

// Adds a row as it is printed.
fn push_row(bytes: &[u8], row: Part, text: &mut Vec<u8>) -> Result<(), AllocError> {
    for at in row.start..row.end {
        match bytes.get(at) {
            Some(byte) if 32 <= *byte && *byte <= 126 => text.push(*byte)?,
            _ => text.push(b'.')?,
        }
    }
    text.extend_from_slice(b"\r\n")
}

// The pages: a form feed after each 60 rows, and after the last.
fn pages_of(alloc: Global, bytes: &[u8], rows: &[Part]) -> Result<Vec<u8>, AllocError> {
    let mut text = Vec::new(alloc);
    for place in 0..rows.len() {
        push_row(bytes, rows[place], &mut text)?;
        if place % 60 == 59 || place + 1 == rows.len() {
            text.push(12)?;
        }
    }
    Ok(text)
}

// Both readings of a file.
fn try_width(alloc: Global, case: &str, bytes: &[u8], width: usize) -> Result<(), Fail>
    requires some { 0 < width }
    requires fits { width ≤ WIDEST_ROW }
{
    let lines = lines_of(alloc, bytes)?;
    let rows = rows_of(alloc, &lines, width)?;
    let plain = pages_of(alloc, bytes, &rows)?;
    let mut screen = MemSink::new(alloc, 65536)?;
    let mut out = Writer::new(&mut screen);
    put_body(bytes, width, &mut out);
    if out.finish() == Put::Done && screen.bytes() == plain.as_slice() {
        return Ok(());
    }
    Err(Fail::new(format_args!("rows of {width} bytes of the file {case}")))
}

fn try_file(alloc: Global, case: &str) -> Result<(), Fail> {
    let mut bytes = Vec::new(alloc);
    push_said(case, &mut bytes)?;
    try_width(alloc, case, &bytes, 1)?;
    try_width(alloc, case, &bytes, 80)?;
    try_width(alloc, case, &bytes, 132)?;
    try_width(alloc, case, &bytes, 200)
}

// Each line is a file.
const FILES: &str = "{}
a
{LF}
{CR}
{CR}{LF}
{CR}{CR}{LF}{LF}{CR}
ab{LF}{LF}c{CR}{LF}{LF}
a{0}b{9}c{127}d{255}{LF}a-{LF}b{12}c
{79*x}{LF}{80*x}{LF}{81*x}{LF}{80*x}{CR}{LF}{80*x}{CR}
{131*x}{LF}{132*x}{LF}{133*x}{LF}{199*x}{LF}{200*x}{LF}{201*x}
{160*x}{LF}{161*x}{LF}{264*x}{LF}{265*x}{LF}{400*x}{LF}{401*x}
{59*ROW}x
{60*ROW}
{59*LF}{81*x}{LF}
{61*LF}
{119*ROW}{133*x}{201*x}{LF}
{120*ROW}
{121*ROW}";

// [page]
#[test]
fn a_plain_reading_has_the_same_pages(rt: HostRuntime) -> Result<(), Fail> {
    for case in FILES.lines() {
        try_file(rt.alloc(), case)?;
    }
    Ok(())
}
