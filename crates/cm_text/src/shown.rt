// What a screen is given.
ghost use Rattle.std.specs.Prelude.{◌≡◌};
ghost use Rattle.cm_text.specs.ScreenBytes.{bell, control_c, end_of_line, join_shown, printing_byte, question, rubout, screen_byte};

/// What ends a line on the screen: carriage return and line feed.
#[tactic(auto, unfolding(crate::specs::ScreenBytes::end_of_line))]
pub fn end_of_line() -> &'static [u8]
    ensures { result.now ≡ end_of_line }
{
    b"\r\n"
}

/// What answers a key that does nothing.
#[tactic(auto, unfolding(crate::specs::ScreenBytes::bell))]
pub fn bell() -> &'static [u8]
    ensures { result.now ≡ bell }
{
    b"\x07"
}

/// What takes the last byte from the screen: back, a space over it, and back again.
#[tactic(auto, unfolding(crate::specs::ScreenBytes::rubout))]
pub fn rubout() -> &'static [u8]
    ensures { result.now ≡ rubout }
{
    b"\x08 \x08"
}

/// What is before the reason of a refusal.
#[tactic(auto, unfolding(crate::specs::ScreenBytes::question))]
pub fn question() -> &'static [u8]
    ensures { result.now ≡ question }
{
    b"?"
}

/// How control-C is shown.
#[tactic(auto, unfolding(crate::specs::ScreenBytes::control_c))]
pub fn control_c() -> &'static [u8]
    ensures { result.now ≡ control_c }
{
    b"^C"
}

/// How a join byte is shown: as the hyphen that it stands for, and the end of its row.
#[tactic(auto, unfolding(crate::specs::ScreenBytes::join_shown, crate::specs::ScreenBytes::end_of_line))]
pub fn join_shown() -> &'static [u8]
    ensures { result.now ≡ join_shown }
{
    b"-\r\n"
}

/// How a text byte is shown: a TAB as one space, any other as it is.
pub fn screen_byte(byte: u8) -> u8
    ensures { result ≡ screen_byte byte }
{
    if byte == b'\t' { b' ' } else { byte }
}

/// How a byte of any text is shown where it is to take one place: one that does not print, as a dot.
pub fn printing_byte(byte: u8) -> u8
    ensures { result ≡ printing_byte byte }
{
    if matches!(byte, b' '..=b'~') {
        byte
    } else {
        b'.'
    }
}
