// Names by example.
ghost use Rattle.std.specs.Prelude.{◌≤◌, length};

use crate::cases::{is_wanted, part};
use cm_text::{NAME_LIMIT, Name, pad};
use std::alloc::Global;
use std::process::Abort;
use std::test::Fail;

fn is_its_text(rt: &impl Abort, text: &str)
    requires { length text.now ≤ NAME_LIMIT }
{
    let name = Name::new(text);
    assert_eq!(rt; name.as_str(), text);
    assert_eq!(rt; name.as_bytes(), text.as_bytes());
}

#[test]
fn a_name_is_its_text(rt: HostRuntime) {
    is_its_text(&rt, "");
    is_its_text(&rt, "EXIT");
    is_its_text(&rt, "A-NAME-OF-THIRTY-NINE-BYTES-IN-LENGTH-1");
}

#[test]
fn zeros_stand_after_a_short_text(rt: HostRuntime) {
    let bytes = pad(b"EXIT");
    assert_eq!(rt; &bytes[..4], b"EXIT".as_slice());
    assert!(rt; bytes[4..].iter().all(|byte| *byte == 0));
}

// A text, and whether it takes one more byte and what it is then.
const PUSHES: &str = "\
|true Z
A-NAME-OF-THIRTY-EIGHT-BYTES-IN-LENGTH|true A-NAME-OF-THIRTY-EIGHT-BYTES-IN-LENGTHZ
A-NAME-OF-THIRTY-NINE-BYTES-IN-LENGTH-1|false A-NAME-OF-THIRTY-NINE-BYTES-IN-LENGTH-1";

fn grows(rt: &impl Abort, alloc: Global, case: &str) -> Result<(), Fail> {
    let text = part(rt, case, 0);
    assert!(rt; text.len() <= NAME_LIMIT, "{text} is too long");
    let mut name = Name::new(text);
    let pushed = name.push(b'Z');
    is_wanted(
        rt,
        case,
        format!(in alloc; "{pushed} {}", name.as_str())?.as_str(),
    );
    Ok(())
}

#[test]
fn a_name_grows_to_39_bytes(rt: HostRuntime) -> Result<(), Fail> {
    for case in PUSHES.lines() {
        grows(&rt, rt.alloc(), case)?;
    }
    Ok(())
}
