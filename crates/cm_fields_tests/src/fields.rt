// Field functions by example.
use crate::cases::{is_wanted, number, part};
use cm_dates::date;
use cm_fields::laws::{skip_passes_blanks_and_comments, skip_stays, trials_are_local};
use cm_fields::{
    Code, Numbers, Try, comma, confirm, long_quoted, noise, number as number_field, numeral,
    quoted, run_field, skip, text_field, token, unquoted, word,
};
use cm_text::ByteSet;
use std::alloc::Global;
use std::process::Abort;
use std::test::Fail;

// A field function, and the phrase that it wants.
#[derive(Clone, Copy)]
pub(crate) enum Trial {
    Number,
    Numeral(Numbers),
    Word,
    Address,
    Noise(&'static str),
    Token(&'static str),
    Quoted,
    LongQuoted,
    Text,
    Comma,
    Confirm,
    Date,
}

ghost use Rattle.std.specs.Prelude.{◌≤◌, length};
ghost use Rattle.cm_text.specs.declared.text.TheConstants.{TEXT_LIMIT};

impl Trial {
    // What the function makes of a text.
    fn of(self, text: &[u8], at: usize) -> Try
        requires short { length text.now ≤ TEXT_LIMIT }
        requires place { at ≤ length text.now }
    {
        match self {
            Trial::Number => number_field(text, at),
            Trial::Numeral(numbers) => numeral(numbers, text, at),
            Trial::Word => word(text, at),
            Trial::Address => run_field(address(), text, at),
            Trial::Noise(phrase) => noise(phrase, text, at),
            Trial::Token(phrase) => token(phrase, text, at),
            Trial::Quoted => quoted(text, at),
            Trial::LongQuoted => long_quoted(text, at),
            Trial::Text => text_field(text, at),
            Trial::Comma => comma(text, at),
            Trial::Confirm => confirm(text, at),
            Trial::Date => date(text, at),
        }
    }
}

// The bytes of an address and of the length of its prefix, as in 10.0.0.1/8.
pub(crate) fn address() -> ByteSet {
    ByteSet::of(b"./").with_range(b'0', b'9')
}

// A case is a text, the place of the field in it, and what the function makes of it.
fn tries_one(rt: &impl Abort, alloc: Global, trial: Trial, case: &str) -> Result<(), Fail> {
    let text = part(rt, case, 0).as_bytes();
    let at = usize::from(number(rt, part(rt, case, 1)));
    assert!(rt; text.len() <= 256 && at <= text.len(), "{case}");
    let tried = trial.of(text, at);
    is_wanted(rt, case, format!(in alloc; "{tried:?}")?.as_str());
    Ok(())
}

// The function makes of each text what is wanted.
pub(crate) fn tries(rt: &impl Abort, alloc: Global, trial: Trial, cases: &str) -> Result<(), Fail> {
    for case in cases.lines() {
        tries_one(rt, alloc, trial, case)?;
    }
    Ok(())
}

// The numbers leave out 28, which `numerals` has, and 42.
const CODES: [Code; 49] = [
    Code::NotKeyword,
    Code::Ambiguous,
    Code::NotSwitch,
    Code::NeedColon,
    Code::BadNoise,
    Code::BadNumber,
    Code::NumberRange,
    Code::NoField,
    Code::FieldLong,
    Code::NotQuoted,
    Code::NoQuote,
    Code::NotToken,
    Code::BadDate,
    Code::YearRange,
    Code::SpecShape,
    Code::NameLong,
    Code::GenRange,
    Code::WildHere,
    Code::Device,
    Code::NoLogical,
    Code::NoDirectory,
    Code::NoUser,
    Code::NoFile,
    Code::NotComma,
    Code::NotConfirmed,
    Code::Rejected,
    Code::TooMany,
    Code::Repeated,
    Code::NoMatch,
    Code::GenFull,
    Code::FileExists,
    Code::NameNeeded,
    Code::CopyRange,
    Code::DirLimit,
    Code::FileLimit,
    Code::FileSize,
    Code::StoreSize,
    Code::LogicalLimit,
    Code::QueueLimit,
    Code::NoDefinition,
    Code::TakeDepth,
    Code::LineLimit,
    Code::BadLine,
    Code::NotInTake,
    Code::NoLabel,
    Code::BadControl,
    Code::NoSubcommands,
    Code::NoMessage,
    Code::MailFull,
];

// The number of each code, and its text.
const CODE_TEXTS: &str = "\
NotKeyword|1|Unrecognized keyword
Ambiguous|2|Ambiguous keyword
NotSwitch|3|Not a switch
NeedColon|4|Switch needs a value
BadNoise|5|Guide word does not match
BadNumber|6|Invalid number
NumberRange|7|Number too large
NoField|8|Field is missing
FieldLong|9|Field too long
NotQuoted|10|Quoted string expected
NoQuote|11|Closing quote is missing
NotToken|12|Token does not match
BadDate|13|Invalid date
YearRange|14|Year not in 1970 to 2099
SpecShape|15|Invalid file specification
NameLong|16|Name too long
GenRange|17|Invalid generation
WildHere|18|Wildcard not allowed
Device|19|Device not allowed
NoLogical|20|No such logical name
NoDirectory|21|No such directory
NoUser|22|No such user
NoFile|23|No such file
NotComma|24|Comma expected
NotConfirmed|25|Not confirmed
Rejected|26|Value not accepted
TooMany|27|Too many fields
Repeated|29|Already given
NoMatch|30|No files match
GenFull|31|No higher generation
FileExists|32|File already exists
NameNeeded|33|File name is needed
CopyRange|34|Copies must be 1 to 63
DirLimit|35|Too many directories
FileLimit|36|Too many files
FileSize|37|File too large
StoreSize|38|No room for files
LogicalLimit|39|Too many logical names
QueueLimit|40|Print queue is full
NoDefinition|41|Logical name is not defined
TakeDepth|43|TAKE too deep
LineLimit|44|Too many lines
BadLine|45|Invalid line in command file
NotInTake|46|Not allowed in a command file
NoLabel|47|No such label
BadControl|48|Invalid line in control file
NoSubcommands|49|Subcommands not allowed here
NoMessage|50|No such message
MailFull|51|Mailbox is full";

fn tells_a_code(rt: &impl Abort, alloc: Global, code: Code, told: &str) -> Result<(), Fail> {
    let number = code.number();
    let found = format!(in alloc; "{code:?}|{number}|{}", code.text())?;
    assert_eq!(rt; found.as_str(), told);
    Ok(())
}

#[test]
fn each_code_has_its_number_and_text(rt: HostRuntime) -> Result<(), Fail> {
    for (code, told) in CODES.iter().zip(CODE_TEXTS.lines()) {
        tells_a_code(&rt, rt.alloc(), *code, told)?;
    }
    assert_eq!(rt; CODE_TEXTS.lines().count(), CODES.len());
    Ok(())
}

// 255 digits are a small number after zeros, and a large one that is small where it wraps.
const NUMBERS: &str = "\
|0|More
12|0|More
12\r|0|Accept { value: Number(12), looked: 3, end: 2 }
0 |0|Accept { value: Number(0), looked: 2, end: 1 }
P 5\r|2|Accept { value: Number(5), looked: 2, end: 3 }
007,|0|Accept { value: Number(7), looked: 4, end: 3 }
34359738367\r|0|Accept { value: Number(34359738367), looked: 12, end: 11 }
34359738368\r|0|Refuse { code: NumberRange, looked: 12 }
00034359738367\r|0|Accept { value: Number(34359738367), looked: 15, end: 14 }
18446744073709551617\r|0|Refuse { code: NumberRange, looked: 21 }
0000000000000000000000000000000000000000000000000000000000000000000000000000000000000000000000000000\
0000000000000000000000000000000000000000000000000000000000000000000000000000000000000000000000000000\
0000000000000000000000000000000000000000000000000000005\r|0|Accept { value: Number(5), looked: 256, \
end: 255 }
1000000000000000000000000000000000000000000000000000000000000000000000000000000000000000000000000000\
0000000000000000000000000000000000000000000000000000000000000000000000000000000000000000000000000000\
0000000000000000000000000000000000000000000000000000005\r|0|Refuse { code: NumberRange, looked: 256 \
}
1000000000000000000000000000000000000000000000000000000000000000000000000000000000000000000000000000\
0000000000000000000000000000000000000000000000000000000000000000000000000000000000000000000000000000\
0000000000000000000000000000000000000000000000000000005|0|More
\r|0|Refuse { code: BadNumber, looked: 1 }
+1\r|0|Refuse { code: BadNumber, looked: 1 }
-1\r|0|Refuse { code: BadNumber, looked: 3 }
12A\r|0|Refuse { code: BadNumber, looked: 4 }
99999999999A\r|0|Refuse { code: BadNumber, looked: 13 }";

#[test]
fn takes_numbers(rt: HostRuntime) -> Result<(), Fail> {
    tries(&rt, rt.alloc(), Trial::Number, NUMBERS)
}

const WORDS: &str = "\
|0|More
AB|0|More
AB\r|0|Accept { value: Word(Span { start: 0, end: 2 }), looked: 3, end: 2 }
AB C-1,|3|Accept { value: Word(Span { start: 3, end: 6 }), looked: 4, end: 6 }
A$\r|0|Accept { value: Word(Span { start: 0, end: 1 }), looked: 2, end: 1 }
\r|0|Refuse { code: NoField, looked: 1 }
 A\r|0|Refuse { code: NoField, looked: 1 }
ABCDEFGHIJKLMNOPQRSTUVWXYZ0123456789-abc|0|More
ABCDEFGHIJKLMNOPQRSTUVWXYZ0123456789-abc\r|1|Accept { value: Word(Span { start: 1, end: 40 }), looke\
d: 40, end: 40 }
ABCDEFGHIJKLMNOPQRSTUVWXYZ0123456789-abc\r|0|Refuse { code: FieldLong, looked: 41 }
ABCDEFGHIJKLMNOPQRSTUVWXYZ0123456789-abc\r|40|Refuse { code: NoField, looked: 1 }";

#[test]
fn takes_words(rt: HostRuntime) -> Result<(), Fail> {
    tries(&rt, rt.alloc(), Trial::Word, WORDS)
}

const GUIDE_WORDS: &str = "\
|0|More
(|0|More
(COM|0|More
(X|0|More
A\r|0|Accept { value: Noise(false), looked: 1, end: 0 }
\r|0|Accept { value: Noise(false), looked: 1, end: 0 }
 (COM)|0|Accept { value: Noise(false), looked: 1, end: 0 }
(COMMANDS FROM)|0|Accept { value: Noise(true), looked: 15, end: 15 }
(COMMANDS F)\r|0|Accept { value: Noise(true), looked: 12, end: 12 }
TAKE (com) A|5|Accept { value: Noise(true), looked: 5, end: 10 }
()|0|Accept { value: Noise(true), looked: 2, end: 2 }
(COM))|0|Accept { value: Noise(true), looked: 5, end: 5 }
(COMMANDS FROMX)|0|Refuse { code: BadNoise, looked: 16 }
(TO)|0|Refuse { code: BadNoise, looked: 4 }
((COM)|0|Refuse { code: BadNoise, looked: 6 }
( COM)|0|Refuse { code: BadNoise, looked: 6 }
(COM\r|0|Refuse { code: BadNoise, looked: 5 }
(\r|0|Refuse { code: BadNoise, looked: 2 }";

#[test]
fn takes_guide_words(rt: HostRuntime) -> Result<(), Fail> {
    tries(&rt, rt.alloc(), Trial::Noise("COMMANDS FROM"), GUIDE_WORDS)
}

const FIXED_TEXTS: &str = "\
|0|More
TTY|0|More
TTY:|0|Accept { value: Token, looked: 4, end: 4 }
A tTy:X\r|2|Accept { value: Token, looked: 4, end: 6 }
TTY\r|0|Refuse { code: NotToken, looked: 4 }
TTX|0|Refuse { code: NotToken, looked: 3 }
A|0|Refuse { code: NotToken, looked: 1 }
\r|0|Refuse { code: NotToken, looked: 1 }";

// A hyphen and CR, `@` and a grave accent differ as a letter's two cases do.
const LETTERS_ALONE: &str = "\
a`|0|Refuse { code: NotToken, looked: 2 }
a@|0|Accept { value: Token, looked: 2, end: 2 }";

#[test]
fn takes_fixed_texts(rt: HostRuntime) -> Result<(), Fail> {
    tries(&rt, rt.alloc(), Trial::Token("TTY:"), FIXED_TEXTS)?;
    tries(
        &rt,
        rt.alloc(),
        Trial::Token("-"),
        "\r|0|Refuse { code: NotToken, looked: 1 }",
    )?;
    tries(&rt, rt.alloc(), Trial::Token("A@"), LETTERS_ALONE)
}

const QUOTED_TEXTS: &str = "\
|0|More
\"|0|More
\"A|0|More
\"A\"|0|More
\"\"|0|More
\"\"\"|0|More
\"\"\r|0|Accept { value: Quoted(Span { start: 1, end: 1 }), looked: 3, end: 2 }
\"A\",|0|Accept { value: Quoted(Span { start: 1, end: 2 }), looked: 4, end: 3 }
A \"B C\"\r|2|Accept { value: Quoted(Span { start: 3, end: 6 }), looked: 6, end: 7 }
\"\"\"A\"\r|0|Accept { value: Quoted(Span { start: 1, end: 4 }), looked: 6, end: 5 }
\"A\"\"\"\r|0|Accept { value: Quoted(Span { start: 1, end: 4 }), looked: 6, end: 5 }
\"\"\"\"\r|0|Accept { value: Quoted(Span { start: 1, end: 3 }), looked: 5, end: 4 }
\"A\"B\"\r|0|Accept { value: Quoted(Span { start: 1, end: 2 }), looked: 4, end: 3 }
\"ABCDEFGHIJKLMNOPQRSTUVWXYZ0123456789 !;\"\r|0|Accept { value: Quoted(Span { start: 1, end: 40 }), \
looked: 42, end: 41 }
\"\"\"ABCDEFGHIJKLMNOPQRSTUVWXYZ0123456789 !\"\r|0|Accept { value: Quoted(Span { start: 1, end: 41 }\
), looked: 43, end: 42 }
\"ABCDEFGHIJKLMNOPQRSTUVWXYZ0123456789 !;.\"\r|0|Refuse { code: FieldLong, looked: 43 }
\"ABCDEFGHIJKLMNOPQRSTUVWXYZ0123456789 !;.\"|0|More
A\"\r|0|Refuse { code: NotQuoted, looked: 1 }
\r|0|Refuse { code: NotQuoted, looked: 1 }
\"\r|0|Refuse { code: NoQuote, looked: 2 }
\"AB\r|0|Refuse { code: NoQuote, looked: 4 }
\"A\"\"\r|0|Refuse { code: NoQuote, looked: 5 }";

// [quoted-text]
#[test]
fn takes_quoted_texts(rt: HostRuntime) -> Result<(), Fail> {
    tries(&rt, rt.alloc(), Trial::Quoted, QUOTED_TEXTS)
}

// What is between the quotes, and what it says.
const UNQUOTED: &str = "\
|
Note 1|Note 1
say \"\"no\"\" now|say \"no\" now
\"\"|\"
\"\"\"\"|\"\"
\"\"\"|\"\"
A\"B|A\"B
thirty-nine bytes stand before the end \"\"40|thirty-nine bytes stand before the end ";

fn says(rt: &impl Abort, case: &str) {
    let inside = part(rt, case, 0);
    assert!(rt; inside.is_ascii());
    is_wanted(rt, case, unquoted(inside.as_bytes()).as_str());
}

#[test]
fn takes_the_quotes_out(rt: HostRuntime) {
    for case in UNQUOTED.lines() {
        says(&rt, case);
    }
}

const RESTS: &str = "\
|0|More
A, !B|0|More
A, !B\r|1|Accept { value: Text(Span { start: 1, end: 5 }), looked: 5, end: 5 }
\r|0|Accept { value: Text(Span { start: 0, end: 0 }), looked: 1, end: 0 }";

#[test]
fn takes_the_rest_of_a_line(rt: HostRuntime) -> Result<(), Fail> {
    tries(&rt, rt.alloc(), Trial::Text, RESTS)
}

const COMMAS: &str = "\
|0|More
A|1|More
,A|0|Accept { value: Comma, looked: 1, end: 1 }
A,\r|1|Accept { value: Comma, looked: 1, end: 2 }
A,\r|2|Refuse { code: NotComma, looked: 1 }
 ,\r|0|Refuse { code: NotComma, looked: 1 }";

const ENDS: &str = "\
|0|More
A|1|More
,A|0|Refuse { code: NotConfirmed, looked: 1 }
A,\r|1|Refuse { code: NotConfirmed, looked: 1 }
A,\r|2|Accept { value: Confirm, looked: 1, end: 2 }
 ,\r|0|Refuse { code: NotConfirmed, looked: 1 }";

#[test]
fn takes_single_bytes(rt: HostRuntime) -> Result<(), Fail> {
    tries(&rt, rt.alloc(), Trial::Comma, COMMAS)?;
    tries(&rt, rt.alloc(), Trial::Confirm, ENDS)
}

// Each text and place, and where it goes on, in a node that knows comments and in a raw one.
const SKIPS: &str = "\
|0|Some(0) Some(0)
A|0|Some(0) Some(0)
A|1|Some(1) Some(1)
\r|0|Some(0) Some(0)
 \t A|0|Some(3) Some(3)
A  B|1|Some(3) Some(3)
A  |2|Some(3) Some(3)
 !x!A|0|Some(4) Some(1)
!x! !y!  A|0|Some(9) Some(0)
!!A|0|Some(2) Some(0)
!x;y!A|0|Some(5) Some(0)
!x|0|None Some(0)
!x!!|0|None Some(0)
 !x\r|0|Some(3) Some(1)
;x|0|None Some(0)
 ;x!y!A|0|None Some(1)
;x!y!A\r|0|Some(6) Some(0)
!x!;y\r|0|Some(5) Some(0)
A!B!C|0|Some(0) Some(0)
A!B!C|3|None Some(3)";

fn skips(rt: &impl Abort, alloc: Global, case: &str) -> Result<(), Fail> {
    let text = part(rt, case, 0).as_bytes();
    let at = usize::from(number(rt, part(rt, case, 1)));
    assert!(rt; at <= text.len(), "{case}");
    let found = format!(in alloc; "{:?} {:?}", skip(false, text, at), skip(true, text, at))?;
    is_wanted(rt, case, found.as_str());
    Ok(())
}

// [blank]
#[test]
fn passes_over_blanks_and_comments(rt: HostRuntime) -> Result<(), Fail> {
    for case in SKIPS.lines() {
        skips(&rt, rt.alloc(), case)?;
    }
    Ok(())
}

#[test]
fn the_laws_hold() {
    trials_are_local();
    skip_stays();
    skip_passes_blanks_and_comments();
}
