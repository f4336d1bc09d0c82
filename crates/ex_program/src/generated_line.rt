// The keys of one line of a generated run.
ghost use Rattle.std.specs.Prelude.{◌≡◌, ◌≤◌, ◌<◌, ◌+◌, ◌++◌, length};
ghost use Rattle.std.specs.Fmt.{decimal};
ghost use Rattle.ex_program.specs.GeneratedKeys.{copy_end, copy_keys, copy_middle, copy_start, line_keys};

use arrayvec::ArrayString;
use cm_text::{DIGIT_LIMIT, decimal_digits};

// Room for the longest line.
pub(crate) const LINE_ROOM: usize = 64;

// Puts the digits of a number after a line.
fn push_number(line: &mut ArrayString<LINE_ROOM>, number: u64)
    requires { length line.old.bytes + DIGIT_LIMIT ≤ LINE_ROOM }
    ensures bytes { line.new.bytes ≡ line.old.bytes ++ decimal number }
    ensures size { length line.new.bytes ≤ length line.old.bytes + DIGIT_LIMIT }
{
    line.push_str(decimal_digits(number).as_str());
}

// A line of a fixed text.
fn fixed(text: &str) -> ArrayString<LINE_ROOM>
    requires { length text.now ≤ LINE_ROOM }
    ensures { result.bytes ≡ text.now }
{
    let mut line = ArrayString::new();
    line.push_str(text);
    line
}

// A line that names a file between two texts.
fn name_file(start: &str, file: u64, end: &str) -> ArrayString<LINE_ROOM>
    requires start { 0 < length start.now }
    requires room { length start.now + DIGIT_LIMIT + length end.now ≤ LINE_ROOM }
    ensures bytes { result.bytes ≡ start.now ++ (decimal file ++ end.now) }
    ensures some { 0 < length result.bytes }
{
    let mut line = fixed(start);
    push_number(&mut line, file);
    line.push_str(end);
    line
}

// What is before the file, before the position and after it, where a file is typed in.
#[tactic(auto, unfolding(crate::specs::GeneratedKeys::copy_start))]
fn copy_start() -> &'static str
    ensures bytes { result.now ≡ copy_start }
    ensures size { length result.now ≡ 11 }
{
    "COPY TTY: F"
}

#[tactic(auto, unfolding(crate::specs::GeneratedKeys::copy_middle))]
fn copy_middle() -> &'static str
    ensures bytes { result.now ≡ copy_middle }
    ensures size { length result.now ≡ 10 }
{
    ".TXT\rLINE "
}

#[tactic(auto, unfolding(crate::specs::GeneratedKeys::copy_end))]
fn copy_end() -> &'static str
    ensures bytes { result.now ≡ copy_end }
    ensures size { length result.now ≡ 2 }
{
    "\r\x1a"
}

// A file is typed in, with the position of its line in it.
#[tactic(auto, unfolding(crate::specs::GeneratedKeys::copy_keys))]
fn copy_keys(position: u64, file: u64) -> ArrayString<LINE_ROOM>
    ensures bytes { result.bytes ≡ copy_keys position file }
    ensures some { 0 < length result.bytes }
{
    let mut line = fixed(copy_start());
    push_number(&mut line, file);
    line.push_str(copy_middle());
    push_number(&mut line, position);
    line.push_str(copy_end());
    line
}

/// The keys of the line at a position, counted from 1, that has this number.
#[tactic(auto, unfolding(crate::specs::GeneratedKeys::line_keys, crate::specs::GeneratedKeys::keys_by, crate::specs::GeneratedKeys::list_start, crate::specs::GeneratedKeys::list_end, crate::specs::GeneratedKeys::delete_start, crate::specs::GeneratedKeys::undelete_start, crate::specs::GeneratedKeys::name_end, crate::specs::GeneratedKeys::expunge_keys, crate::specs::GeneratedKeys::tell_keys))]
pub(crate) fn line_keys(position: u64, number: u64) -> ArrayString<LINE_ROOM>
    ensures keys { result.bytes ≡ line_keys position number }
    ensures some { 0 < length result.bytes }
{
    let file = number / 1024 % 50;
    match number / 65_536 % 6 {
        0 => copy_keys(position, file),
        1 => name_file("DIRECTORY F", file, ".*\r"),
        2 => name_file("DEL F", file, ".TXT\r"),
        3 => name_file("UNDEL F", file, ".TXT\r"),
        4 => fixed("EXPX\x7f\x1b\r"),
        _ => fixed("INFX\x17INF\x1bDIR\r"),
    }
}
