// Whole languages and their faults, by example. In a case `^` ends a line of the text.
use crate::cases::{given, is_wanted};
use crate::commands::command_text;
use cm_synopsis::{Language, NameList, TEXT_SIZE_LIMIT, TextFault, read_language};
use cm_text::Name;
use std::alloc::Global;
use std::process::Abort;
use std::test::Fail;

// A text; its prompt, its lists with their names, the helps of its keywords, and its commands with their lines.
const LANGUAGES: &str = "\
A~-|||1 keyword A;
A^~-|||1 keyword A;
^ ^# A^A~-|||4 keyword A;
A\r^B~-|||1 keyword A;2 keyword B;
prompt ROUTER> ^A~ROUTER>|||2 keyword A;
prompt  a b ?^A~a b ?|||2 keyword A;
A^prompt R>~R>|||1 keyword A;
list interfaces^SHOW x:interfaces~-|interfaces=||2 keyword SHOW;field x: Listed(0);
list a^list speeds 10 100 AUTO^SET x:speeds~-|a=speeds=10,100,AUTO,||3 keyword SET;field x: Listed(1);
A^list a eth0.1~-|a=eth0.1,||1 keyword A;
help SHOW -- what there is^SHOW~-||SHOW -- what there is|2 keyword SHOW;
A^help A B -- b ~-||A B -- b|1 keyword A;
 prompt A~-|||1 keyword prompt;keyword A;";

// A text, and its first fault: the line, the place, and the reason.
const FAULTS: &str = "\
~1 0 NoCommand
# A^^prompt R>~1 0 NoCommand
prompt~1 6 NoName
prompt \t ^A~1 9 NoName
prompt A\tB~1 8 BadByte
prompt 1234567890123456789012345678901234567890~1 7 LongWord
prompt A^A^prompt B~3 0 SecondPrompt
prompt A^prompt~2 0 SecondPrompt
list~1 4 NoName
list a/b~1 5 BadWord
list  1234567890123456789012345678901234567890~1 6 LongWord
list number~1 5 SameList
list ipv6^A~1 5 SameList
list a^A^list a b~3 5 SameList
list a b x/y~1 9 BadWord
list a B c b~1 11 SameName
help~1 4 NoName
help -- x~1 9 NoName
help A~1 6 NoHelp
help A -- ~1 7 NoHelp
help A -- \u{1}~1 10 BadByte
help A/B -- x~1 5 BadWord
help A B C D E F G H I J K L M N O P Q -- x~1 37 ManyWords
A^B ]~2 2 NotOpen
A x:speeds^list speeds 1~1 2 UnknownKind
A^list number^B ]~2 5 SameList";

fn lists_text(alloc: Global, names: &[Name], lists: &[NameList]) -> Result<String, Fail> {
    let mut text = String::new(alloc);
    for (name, list) in names.iter().zip(lists.iter()) {
        text.push_str(name.as_str())?;
        text.push_str("=")?;
        for word in list.as_slice() {
            text.push_str(word.as_str())?;
            text.push_str(",")?;
        }
    }
    Ok(text)
}

fn helps_text(alloc: Global, language: &Language) -> Result<String, Fail> {
    let mut text = String::new(alloc);
    for help in language.helps() {
        for name in help.path() {
            text.push_str(name.as_str())?;
            text.push_str(" ")?;
        }
        text.push_str("-- ")?;
        for byte in help.text() {
            text.push(char::from(*byte))?;
        }
    }
    Ok(text)
}

fn commands_text(alloc: Global, language: &Language) -> Result<String, Fail> {
    let mut text = String::new(alloc);
    for (line, command) in language.lines().iter().zip(language.commands().iter()) {
        text.push_str(format!(in alloc; "{line} ")?.as_str())?;
        text.push_str(command_text(alloc, command)?.as_str())?;
    }
    Ok(text)
}

fn shown(alloc: Global, read: &Result<Language, TextFault>) -> Result<String, Fail> {
    let language = match read {
        Ok(language) => language,
        Err(fault) => {
            return Ok(format!(in alloc; "{} {} {:?}", fault.line, fault.place, fault.reason)?);
        }
    };
    let prompt = match language.prompt() {
        Some(name) => name.as_str(),
        None => "-",
    };
    let mut text = format!(in alloc; "{prompt}|")?;
    text.push_str(lists_text(alloc, language.names(), language.lists())?.as_str())?;
    text.push_str("|")?;
    text.push_str(helps_text(alloc, language)?.as_str())?;
    text.push_str("|")?;
    text.push_str(commands_text(alloc, language)?.as_str())?;
    Ok(text)
}

fn reads(rt: &impl Abort, alloc: Global, case: &str) -> Result<(), Fail> {
    let mut text = Vec::new(alloc);
    for byte in given(rt, case).as_bytes() {
        text.push(if *byte == b'^' { b'\n' } else { *byte })?;
    }
    let read = read_language(alloc, &text)?;
    is_wanted(rt, case, shown(alloc, &read)?.as_str());
    Ok(())
}

// [language]
#[test]
fn reads_languages(rt: HostRuntime) -> Result<(), Fail> {
    for case in LANGUAGES.split('\n') {
        reads(&rt, rt.alloc(), case)?;
    }
    Ok(())
}

#[test]
fn tells_faults_of_texts(rt: HostRuntime) -> Result<(), Fail> {
    for case in FAULTS.split('\n') {
        reads(&rt, rt.alloc(), case)?;
    }
    Ok(())
}

#[test]
fn takes_no_list_too_many(rt: HostRuntime) -> Result<(), Fail> {
    let alloc = rt.alloc();
    let mut text = String::new(alloc);
    for number in 0..201 {
        text.push_str(format!(in alloc; "list a{number}\n")?.as_str())?;
    }
    let read = read_language(alloc, text.as_bytes())?;
    assert_eq!(rt; shown(alloc, &read)?.as_str(), "201 0 ManyLists");
    Ok(())
}

#[test]
fn takes_no_text_too_long(rt: HostRuntime) -> Result<(), Fail> {
    let alloc = rt.alloc();
    let text = vec![in alloc; b' '; TEXT_SIZE_LIMIT + 1]?;
    let read = read_language(alloc, &text)?;
    assert_eq!(rt; shown(alloc, &read)?.as_str(), "1 0 LongText");
    Ok(())
}
