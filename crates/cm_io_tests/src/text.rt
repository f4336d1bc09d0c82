// Texts of tests.
//
// In a text `~` stands for the end of a line, `|` for a line feed and `_` for a space.
ghost use Rattle.std.specs.Prelude.{◌≡◌, ◌++◌, ◌∷◌, [], IfOk, OnOk};
ghost use Rattle.cm_io_tests.specs.Texts.{byte_meaning, meaning};

use std::alloc::{AllocError, Global};

/// The bytes of a text.
#[tactic(auto, unfolding(crate::specs::Texts::meaning))]
pub fn bytes_of(alloc: Global, text: &str) -> Result<Vec<u8>, AllocError>
    ensures { IfOk result (λ it. it.items ≡ meaning text.now) }
{
    let mut bytes = Vec::new(alloc);
    push_text(text, &mut bytes)?;
    Ok(bytes)
}

/// Puts the bytes of a text after others.
pub fn push_text(text: &str, bytes: &mut Vec<u8>) -> Result<(), AllocError>
    ensures { OnOk result (bytes.new.items ≡ bytes.old.items ++ meaning text.now) }
{
    push_meaning(text.as_bytes(), bytes)
}

// Puts what the bytes of a text stand for after others.
#[tactic(auto, unfolding(crate::specs::Texts::meaning))]
pub(crate) fn push_meaning(text: &[u8], bytes: &mut Vec<u8>) -> Result<(), AllocError>
    ensures { OnOk result (bytes.new.items ≡ bytes.old.items ++ meaning text.now) }
{
    for byte in text {
        push_byte(*byte, bytes)?;
    }
    Ok(())
}

// Puts what a byte of a text stands for.
#[tactic(auto, unfolding(crate::specs::Texts::byte_meaning))]
fn push_byte(byte: u8, bytes: &mut Vec<u8>) -> Result<(), AllocError>
    ensures { OnOk result (bytes.new.items ≡ bytes.old.items ++ byte_meaning byte) }
{
    if byte == b'~' {
        bytes.push(b'\r')?;
        bytes.push(b'\n')?;
        return Ok(());
    }
    if byte == b'|' {
        bytes.push(b'\n')?;
        return Ok(());
    }
    if byte == b'_' {
        bytes.push(b' ')?;
        return Ok(());
    }
    bytes.push(byte)?;
    Ok(())
}
