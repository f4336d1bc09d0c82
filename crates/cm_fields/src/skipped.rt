// Blanks and comments before a field.
ghost use Rattle.std.specs.Prelude.{◌≡◌, ◌≤◌, length, IfSome};
ghost use Rattle.std.specs.List.{prefix_len};
ghost use Rattle.cm_text.specs.Bytes.{is_blank};
ghost use Rattle.cm_fields.specs.Skip.{ended, passed, skip};

use cm_text::is_blank;

// Whether a byte is in a comment, and what ends that.
#[derive(Clone, Copy)]
enum Comment {
    // In none.
    Outside,
    // The next `!` ends it, or the end of the line.
    ToMark,
    // The end of the line ends it.
    ToEnd,
}

// Where the text goes on after a byte that is passed over; none where the byte is not passed.
fn passed(raw: bool, comment: Comment, byte: u8) -> Option<Comment>
    ensures { result ≡ passed raw comment byte }
{
    match (comment, byte) {
        (Comment::Outside, _) if is_blank(byte) => Some(Comment::Outside),
        (Comment::Outside, b'!') if !raw => Some(Comment::ToMark),
        (Comment::Outside, b';') if !raw => Some(Comment::ToEnd),
        (Comment::Outside, _) | (_, b'\r') => None,
        (Comment::ToMark, b'!') => Some(Comment::Outside),
        (inside, _) => Some(inside),
    }
}

// How many blanks are in front.
fn blank_run(rest: &[u8]) -> usize
    ensures value { result ≡ prefix_len is_blank rest.now }
    ensures within { result ≤ length rest.now }
{
    rest.iter().take_while(|byte| is_blank(**byte)).count()
}

/// The first place at or after `at` that is past blanks and, unless the text is raw, comments. A comment goes
/// from `!` to the next `!`, or from `;` or an unclosed `!` to the carriage return. None exactly where a comment
/// is not ended in a text that is not finished.
pub fn skip(raw: bool, text: &[u8], at: usize) -> Option<usize>
    requires { at ≤ length text.now }
    // [blank]
    ensures value { result ≡ skip raw text.now at }
    ensures within { IfSome result (λ place. (at ≤ place) × (place ≤ length text.now)) }
{
    let start = at + blank_run(&text[at..]);
    let mut comment = Comment::Outside;
    for (size, byte) in text[start..].iter().enumerate() {
        match passed(raw, comment, *byte) {
            Some(next) => comment = next,
            None => return Some(start + size),
        }
    }
    match comment {
        Comment::Outside => Some(text.len()),
        Comment::ToMark | Comment::ToEnd => None,
    }
}
