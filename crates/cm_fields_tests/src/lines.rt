// Keys and lines by example.
ghost use Rattle.std.specs.Prelude.{◌≡◌, true};
ghost use Rattle.std.specs.List.{AllByRecursion};
ghost use Rattle.cm_text.specs.Bytes.{is_text};

use crate::cases::{is_wanted, number, part};
use cm_line::{KeyClass, Line};
use cm_text::LINE_LIMIT;
use std::alloc::Global;
use std::process::Abort;
use std::test::Fail;

// A key, and its class.
const KEYS: &str = "\
9|Text
32|Text
65|Text
62|Text
64|Text
126|Text
13|End
10|End
127|Rub
23|Word
21|Erase
18|Show
8|Back
3|Stop
27|Escape
6|Part
63|Help
0|Other
31|Other
128|Other
255|Other";

fn has_its_class(rt: &impl Abort, alloc: Global, case: &str) -> Result<(), Fail> {
    let key = number(rt, part(rt, case, 0));
    assert!(rt; key < 256);
    let class = KeyClass::of(key as u8);
    is_wanted(rt, case, format!(in alloc; "{class:?}")?.as_str());
    Ok(())
}

#[test]
fn each_key_has_its_class(rt: HostRuntime) -> Result<(), Fail> {
    for case in KEYS.lines() {
        has_its_class(&rt, rt.alloc(), case)?;
    }
    Ok(())
}

fn line_of(rt: &impl Abort, text: &[u8]) -> Line {
    let mut line = Line::new();
    for byte in text {
        assert!(rt; cm_text::is_text(*byte), "{byte} is no text byte");
        assert!(rt; line.push(*byte), "the line is full");
    }
    line
}

// A text, and the lengths to which control-W cuts it, one after the other.
const WORDS: &str = "\
A.B-C  |2 1 0 0
AB CD|3 0
AB \t|0
AB.>9|4 3 2 0
 \t  |0
|0";

fn cuts_a_word(rt: &impl Abort, line: &mut Line, text: &str, length: &str) {
    let start = line.word_start();
    assert_eq!(rt; start, usize::from(number(rt, length)), "in {text:?}");
    line.cut(start);
    assert!(rt; text.as_bytes().starts_with(line.bytes()), "in {text:?}");
}

fn cuts_words(rt: &impl Abort, case: &str) {
    let text = part(rt, case, 0);
    let mut line = line_of(rt, text.as_bytes());
    for length in part(rt, case, 1).split(' ') {
        cuts_a_word(rt, &mut line, text, length);
    }
}

#[test]
fn control_w_takes_a_word(rt: HostRuntime) {
    for case in WORDS.lines() {
        cuts_words(&rt, case);
    }
}

#[test]
fn a_full_line_takes_no_byte(rt: HostRuntime) {
    let text = [b'A'; LINE_LIMIT];
    let mut line = line_of(&rt, &text);
    assert!(rt; cm_text::is_text(b'B'));
    assert!(rt; !line.push(b'B'));
    assert_eq!(rt; line.bytes(), text.as_slice());
}

// Whether a line takes the bytes, and how many it then has.
fn appends(rt: &impl Abort, line: &mut Line, bytes: &[u8], taken: bool, size: usize)
    requires { AllByRecursion (λ byte. is_text byte ≡ true) bytes.now }
{
    assert_eq!(rt; line.append(bytes), taken);
    assert_eq!(rt; line.bytes().len(), size);
}

#[test]
#[tactic(auto, unfolding(cm_text::specs::Bytes::is_text))]
fn a_line_takes_what_fits(rt: HostRuntime) {
    let text = [b'A'; LINE_LIMIT];
    let mut line = line_of(&rt, &text[..253]);
    appends(&rt, &mut line, b"BCD", false, 253);
    appends(&rt, &mut line, b"BC", true, 255);
    appends(&rt, &mut line, b"D", false, 255);
    appends(&rt, &mut line, b"", true, 255);
    assert_eq!(rt; [line.pop(), line.pop()], [Some(b'C'), Some(b'B')]);
    assert_eq!(rt; line.bytes(), &text[..253]);
}

#[test]
fn an_empty_line_gives_nothing(rt: HostRuntime) {
    let mut line = line_of(&rt, b"AB");
    assert_eq!(rt; line.bytes(), b"AB".as_slice());
    line.cut(1);
    assert_eq!(rt; [line.pop(), line.pop()], [Some(b'A'), None]);
    assert_eq!(rt; line.bytes().len(), 0);
}

#[test]
fn a_hyphen_continues_a_line(rt: HostRuntime) {
    let mut line = line_of(&rt, b"A-");
    assert_eq!(rt;
        [line.class(b'\r'), line.class(b'\n')],
        [KeyClass::Join, KeyClass::Join]
    );
    assert_eq!(rt;
        [line.class(b'-'), line.class(127)],
        [KeyClass::Text, KeyClass::Rub]
    );
    assert!(rt; cm_text::ends_in_hyphen(line.bytes()));
    line.join();
    assert_eq!(rt; line.bytes(), b"A\n".as_slice());
    assert_eq!(rt; line.class(b'\r'), KeyClass::End);
    assert_eq!(rt; line.word_start(), 0);
}

#[test]
fn a_line_is_set_whole(rt: HostRuntime) {
    let mut line = line_of(&rt, b"A-");
    line.set(line_of(&rt, b"BCD").bytes());
    assert_eq!(rt; line.bytes(), b"BCD".as_slice());
    line.set(b"");
    assert_eq!(rt; line.bytes().len(), 0);
}
