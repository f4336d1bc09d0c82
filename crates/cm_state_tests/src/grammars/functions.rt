// What blocks read.
use cm_blocks::Function;
use cm_fields::{Numbers, Radix};
use cm_text::{ByteSet, NAME_LIMIT, Name};

// A name with this text. None where it is too long.
pub(crate) fn name(text: &str) -> Option<Name> {
    if text.len() > NAME_LIMIT {
        return None;
    }
    Some(Name::new(text))
}

// A name, unless the text is empty.
pub(crate) fn some_name(text: &str) -> Option<Name> {
    if text.is_empty() { None } else { name(text) }
}

// The functions that are told by their names alone.
const PLAIN: &str =
    "number word quoted date text comma confirm user directory infile outfile address path spaced decimal octal \
    hexadecimal longquoted anyfile";

// A function: its name, and after a space the number or the text that it reads.
pub(crate) fn function(text: &str) -> Option<Function> {
    let Some((kind, what)) = text.split_once(' ') else {
        return plain(text);
    };
    match what.parse() {
        Ok(number) => numbered(kind, number),
        Err(_) => named(kind, name(what)?),
    }
}

fn numbered(kind: &str, number: u8) -> Option<Function> {
    match kind {
        "key" => Some(Function::Key(u16::from(number))),
        "switch" => Some(Function::Switch(u16::from(number))),
        "hook" => Some(Function::Hook(number)),
        _ => None,
    }
}

fn named(kind: &str, text: Name) -> Option<Function> {
    match kind {
        "noise" => Some(Function::Noise(text)),
        "token" => Some(Function::Token(text)),
        _ => None,
    }
}

fn plain(kind: &str) -> Option<Function> {
    let place = PLAIN.split(' ').position(|word| word == kind)?;
    Some(match place {
        0 => Function::Number,
        1 => Function::Word,
        2 => Function::Quoted,
        3 => Function::Date,
        4 => Function::Text,
        5 => Function::Comma,
        6 => Function::Confirm,
        7 => Function::User,
        8 => Function::Directory,
        9 => Function::InFile,
        10 => Function::OutFile,
        11 => Function::Run(ByteSet::of(b"./").with_range(b'0', b'9')),
        12 => Function::Run(
            ByteSet::of(b"-._~/")
                .with_range(b'0', b'9')
                .with_range(b'a', b'z'),
        ),
        13 => Function::Run(ByteSet::of(b" ").with_range(b'a', b'z')),
        14 => numbers(Radix::Decimal, true, -5, 7),
        15 => numbers(Radix::Octal, false, 0, 511),
        16 => numbers(Radix::Hexadecimal, false, 10, 65_535),
        17 => Function::LongQuoted,
        _ => Function::AnyFile,
    })
}

fn numbers(radix: Radix, signed: bool, least: i64, most: i64) -> Function {
    Function::Numeral(Numbers {
        radix,
        signed,
        least,
        most,
    })
}
