// Quoted texts as long as the line by example.
use crate::cases::part;
use crate::fields::{Trial, tries};
use cm_fields::unquote;
use std::process::Abort;
use std::test::Fail;

// Between the quotes are 0, 39, 40, 250 and 253 bytes.
const LONG_TEXTS: &str = "\
|0|More
\"A|0|More
\"A\"|0|More
\"\"\r|0|Accept { value: Quoted(Span { start: 1, end: 1 }), looked: 3, end: 2 }
\"thirty-nine bytes stand before the end.\"\r|0|Accept { value: Quoted(Span { start: 1, end: 40 })\
, looked: 42, end: 41 }
\"thirty-nine bytes stand before the end.!\"\r|0|Accept { value: Quoted(Span { start: 1, end: 41 })\
, looked: 43, end: 42 }
A \"thirty-nine bytes stand before the end.!\",|2|Accept { value: Quoted(Span { start: 3, end: 43 }\
), looked: 43, end: 44 }
\"twenty-three bytes here\"\"twenty-three bytes here\"\"twenty-three bytes here\"\"twenty-three byt\
es here\"\"twenty-three bytes here\"\"twenty-three bytes here\"\"twenty-three bytes here\"\"twenty-\
three bytes here\"\"twenty-three bytes here\"\"twenty-three bytes here\"\"\"\r|0|Accept { value: Qu\
oted(Span { start: 1, end: 251 }), looked: 253, end: 252 }
\"twenty-three bytes here\"\"twenty-three bytes here\"\"twenty-three bytes here\"\"twenty-three byt\
es here\"\"twenty-three bytes here\"\"twenty-three bytes here\"\"twenty-three bytes here\"\"twenty-\
three bytes here\"\"twenty-three bytes here\"\"twenty-three bytes here\"\"end\"\r|0|Accept { value\
: Quoted(Span { start: 1, end: 254 }), looked: 256, end: 255 }
\"twenty-three bytes here\"\"twenty-three bytes here\"\"twenty-three bytes here\"\"twenty-three byt\
es here\"\"twenty-three bytes here\"\"twenty-three bytes here\"\"twenty-three bytes here\"\"twenty-\
three bytes here\"\"twenty-three bytes here\"\"twenty-three bytes here\"\"end\"|0|More
\"twenty-three bytes here\"\"twenty-three bytes here\"\"twenty-three bytes here\"\"twenty-three byt\
es here\"\"twenty-three bytes here\"\"twenty-three bytes here\"\"twenty-three bytes here\"\"twenty-\
three bytes here\"\"twenty-three bytes here\"\"twenty-three bytes here\"\"end\r|0|Refuse { code: No\
Quote, looked: 255 }
\"A\"\"\r|0|Refuse { code: NoQuote, looked: 5 }
A\"\r|0|Refuse { code: NotQuoted, looked: 1 }
\r|0|Refuse { code: NotQuoted, looked: 1 }";

#[test]
fn takes_long_quoted_texts(rt: HostRuntime) -> Result<(), Fail> {
    tries(&rt, rt.alloc(), Trial::LongQuoted, LONG_TEXTS)
}

// What is between the quotes, and all that it says.
const UNQUOTED: &str = "\
|
Note 1|Note 1
say \"\"no\"\" now|say \"no\" now
\"\"|\"
\"\"\"\"|\"\"
\"\"\"|\"\"
A\"B|A\"B
thirty-nine bytes stand before the end \"\"40|thirty-nine bytes stand before the end \"40
twenty-three bytes here\"\"twenty-three bytes here\"\"twenty-three bytes here\"\"twenty-three byte\
s here\"\"twenty-three bytes here\"\"twenty-three bytes here\"\"twenty-three bytes here\"\"twenty-t\
hree bytes here\"\"twenty-three bytes here\"\"twenty-three bytes here\"\"|twenty-three bytes here\"\
twenty-three bytes here\"twenty-three bytes here\"twenty-three bytes here\"twenty-three bytes here\
\"twenty-three bytes here\"twenty-three bytes here\"twenty-three bytes here\"twenty-three bytes her\
e\"twenty-three bytes here\"";

fn says(rt: &impl Abort, case: &str) {
    let inside = part(rt, case, 0);
    assert!(rt; inside.is_ascii() && inside.len() <= 256);
    let said = unquote(inside.as_bytes());
    assert!(rt; said.as_slice() == part(rt, case, 1).as_bytes(), "{case}");
}

#[test]
fn says_all_of_a_quoted_text(rt: HostRuntime) {
    for case in UNQUOTED.lines() {
        says(&rt, case);
    }
}
