// The part that a word is, by example.
use crate::cases::{given, is_wanted};
use cm_synopsis::{Kind, Part, Reason, read_part};
use cm_text::Name;
use std::alloc::Global;
use std::process::Abort;
use std::test::Fail;

// A word under the lists `interfaces` and `speeds`, and the part that it is, or the fault.
const PARTS: &str = "\
~NoName
SHOW~keyword SHOW
REMOTE-AS~keyword REMOTE-AS
eth0.100_a~keyword eth0.100_a
..~again
.~keyword .
...~keyword ...
-~keyword -
10-20~keyword 10-20
(TO)~guide TO
(TO FILE)~guide TO FILE
()~NoName
(TO~OpenGuide
(~OpenGuide
(123456789012345678901234567890123456789)~guide 123456789012345678901234567890123456789
(1234567890123456789012345678901234567890)~LongWord
123456789012345678901234567890123456789~keyword 123456789012345678901234567890123456789
1234567890123456789012345678901234567890~LongWord
[~open Optional
<~open Choice
{~open AnyOrder
]~close Optional
>~close Choice
}~close AnyOrder
|~or
/APPEND~switch APPEND
/MODE:~lead MODE
/~NoName
/:~NoName
/A/B~BadWord
/A:b~BadWord
A/B~BadWord
A)~BadWord
a:number~field a: Number
a:word~field a: Word
a:quoted~field a: Quoted
a:date~field a: Date
a:rest~field a: Rest
a:mac~field a: Mac
a:ipv4~field a: Ipv4
a:ipv4/len~field a: Ipv4Prefix
a:ipv6~field a: Ipv6
a:ipv6/len~field a: Ipv6Prefix
a:interfaces~field a: Listed(0)
a:speeds~field a: Listed(1)
a:speed~UnknownKind
a:Number~UnknownKind
a:~UnknownKind
:word~NoName
a+b:word~BadWord
a+b:none~BadWord
a:word:word~UnknownKind
a:<word>~field a: Word
a:<ipv4|ipv6|speeds>~field a: Ipv4 Ipv6 Listed(1)
a:<>~UnknownKind
a:<~UnknownKind
a:<word~UnknownKind
a:<word|>~UnknownKind
a:<|word>~UnknownKind
a:<<word>~UnknownKind
a:<mac|mac|mac|mac|mac|mac|mac|mac>~field a: Mac Mac Mac Mac Mac Mac Mac Mac
a:<mac|mac|mac|mac|mac|mac|mac|mac|mac>~ManyKinds
a:<mac|mac|mac|mac|mac|mac|mac|mac|none>~UnknownKind
a:[]~BadClass
a:[~BadClass
a:[A~BadClass
a:[Z-A]~BadClass
a:[A B]~BadClass
a:<[A-Z]|none>~UnknownKind
\u{7f}~BadByte
A\u{1}~BadByte
(A\u{1})~BadByte";

// A word behind a field of numbers.
const RANGES: &str = "\
10-20~range 10 20
0-0~range 0 0
007-8~range 7 8
1-4294967295~range 1 4294967295
1-4294967296~BadRange
4294967296-4294967297~BadRange
1-42949672950~BadRange
20-10~BadRange
1-~BadRange
1--2~BadRange
1-2-3~BadRange
1-A~BadRange
3COM-4~BadRange
10~keyword 10
-1~keyword -1
A-1~keyword A-1
..~again
b:word~field b: Word";

// The bytes of a class, and a byte: whether it is in it.
const CLASSES: &str = "\
[A-C] A~true
[A-C] C~true
[A-C] D~false
[A-C] -~false
[A-] -~true
[A-] B~false
[-A] -~true
[A-C-E] -~true
[A-C-E] D~false
[A-C-E] E~true
[a-c0-2] 1~true
[a-c0-2] b~true
[a-c0-2] 3~false
[--/] .~true
[--/] ,~false
[!] !~true
[[|<>{}] [~true
[[|<>{}] |~true";

fn put_kinds(alloc: Global, kinds: &[Kind], text: &mut String) -> Result<(), Fail> {
    for kind in kinds {
        text.push_str(format!(in alloc; " {kind:?}")?.as_str())?;
    }
    Ok(())
}

pub(crate) fn part_text(alloc: Global, part: &Part) -> Result<String, Fail> {
    match part {
        Part::Keyword(name) => Ok(format!(in alloc; "keyword {}", name.as_str())?),
        Part::Guide(name) => Ok(format!(in alloc; "guide {}", name.as_str())?),
        Part::Field(name, kinds) => {
            let mut text = format!(in alloc; "field {}:", name.as_str())?;
            put_kinds(alloc, kinds.as_slice(), &mut text)?;
            Ok(text)
        }
        Part::Range(low, high) => Ok(format!(in alloc; "range {low} {high}")?),
        Part::Switch(name) => Ok(format!(in alloc; "switch {}", name.as_str())?),
        Part::Lead(name) => Ok(format!(in alloc; "lead {}", name.as_str())?),
        Part::Open(bracket) => Ok(format!(in alloc; "open {bracket:?}")?),
        Part::Close(bracket) => Ok(format!(in alloc; "close {bracket:?}")?),
        Part::Or => Ok(format!(in alloc; "or")?),
        Part::Again => Ok(format!(in alloc; "again")?),
    }
}

fn shown(alloc: Global, read: &Result<Part, Reason>) -> Result<String, Fail> {
    match read {
        Ok(part) => part_text(alloc, part),
        Err(reason) => Ok(format!(in alloc; "{reason:?}")?),
    }
}

fn reads(rt: &impl Abort, alloc: Global, numbered: bool, case: &str) -> Result<(), Fail> {
    let lists = [Name::new("interfaces"), Name::new("speeds")];
    let read = read_part(&lists, numbered, given(rt, case).as_bytes());
    is_wanted(rt, case, shown(alloc, &read)?.as_str());
    Ok(())
}

#[test]
fn reads_parts(rt: HostRuntime) -> Result<(), Fail> {
    for case in PARTS.split('\n') {
        reads(&rt, rt.alloc(), false, case)?;
    }
    Ok(())
}

#[test]
fn reads_ranges(rt: HostRuntime) -> Result<(), Fail> {
    for case in RANGES.split('\n') {
        reads(&rt, rt.alloc(), true, case)?;
    }
    Ok(())
}

// Whether the field is of one class, which has a byte.
fn has(read: &Result<Part, Reason>, byte: u8) -> bool {
    let Ok(Part::Field(_, kinds)) = read else {
        return false;
    };
    match kinds.as_slice() {
        [Kind::Class(set)] => set.has(byte),
        _ => false,
    }
}

fn holds(rt: &impl Abort, alloc: Global, case: &str) -> Result<(), Fail> {
    let (class, byte) = given(rt, case).split_once(' ').ok_or("a class and a byte")?;
    let word = format!(in alloc; "x:{class}")?;
    let read = read_part(&[], false, word.as_bytes());
    let found = has(&read, *byte.as_bytes().first().ok_or("a byte")?);
    is_wanted(rt, case, format!(in alloc; "{found}")?.as_str());
    Ok(())
}

#[test]
fn reads_classes(rt: HostRuntime) -> Result<(), Fail> {
    for case in CLASSES.split('\n') {
        holds(&rt, rt.alloc(), case)?;
    }
    Ok(())
}
