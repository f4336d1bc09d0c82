// Logical names.
ghost use Rattle.std.specs.Prelude.{◌≡◌};
ghost use Rattle.std.specs.List.{list_all};
ghost use Rattle.cm_text.specs.Bytes.{is_name};
ghost use Rattle.cm_files.specs.LogicalName.{begins_with_letter, is_logical_name};

use cm_text::{NAME_LIMIT, equals, is_name};

fn begins_with_letter(name: &[u8]) -> bool
    ensures { result ≡ begins_with_letter name.now }
{
    match name.first() {
        Some(byte) => byte.is_ascii_alphabetic(),
        None => false,
    }
}

fn are_name_bytes(name: &[u8]) -> bool
    ensures { result ≡ list_all is_name name.now }
{
    name.iter().all(|byte| is_name(*byte))
}

/// Whether a name can be given a directory to stand for: 1 to 39 name bytes that begin with a letter, and not
/// PS, DSK or TTY, which are devices. Letters have no case.
#[tactic(auto, unfolding(crate::specs::LogicalName::is_logical_name))]
pub fn is_logical_name(name: &[u8]) -> bool
    ensures { result ≡ is_logical_name name.now }
{
    name.len() <= NAME_LIMIT
        && begins_with_letter(name)
        && are_name_bytes(name)
        && !equals(name, b"PS")
        && !equals(name, b"DSK")
        && !equals(name, b"TTY")
}
