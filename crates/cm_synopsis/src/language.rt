// A language.
ghost use Rattle.std.specs.Prelude.{◌≡◌, IfOk, option_copied};
ghost use Rattle.cm_text.specs.Lines.{lines};
ghost use Rattle.cm_synopsis.specs.Languages.{at_line, language_of, nothing, read_lines, some_command, with_saying};

use crate::Command;
use crate::fault::Fault;
use crate::line::{KeywordHelp, NameList, Saying};
use crate::reason::Reason;
use crate::saying::saying_of;
use cm_text::{Name, first_line};
use std::alloc::{AllocError, Global};
use std::marker::Model;

/// The most bytes of a text.
pub const TEXT_SIZE_LIMIT: usize = 1_048_576;

/// Where a text of a language is wrong, and why.
#[derive(Clone, Copy, Debug, PartialEq, Eq)]
pub struct TextFault {
    /// The number of the line, from 1.
    pub line: usize,
    /// The place of the byte in it, from 0.
    pub place: usize,
    /// Why.
    pub reason: Reason,
}

/// A language. Contracts see its prompt, the names of its lists and those that each has, the help of keywords, and its
/// commands with the numbers of their lines.
#[derive(Debug, Drop)]
pub struct Language {
    prompt: Option<Name>,
    names: Vec<Name>,
    lists: Vec<NameList>,
    helps: Vec<KeywordHelp>,
    commands: Vec<Command>,
    lines: Vec<usize>,
}

impl Model for Language {
    ghost use Rattle.cm_synopsis.specs.Languages.{Language};

    ghost Value = { Language };

    ghost view = { λ it. record {
      prompt = it.prompt;
      names = it.names.items;
      lists = it.lists.items;
      helps = it.helps.items;
      commands = it.commands.items;
      lines = it.lines.items;
    } };
}

impl Language {
    // Nothing is said yet.
    fn nothing(alloc: Global) -> Language
        ensures { result ≡ nothing }
    {
        Language {
            prompt: None,
            names: Vec::new(alloc),
            lists: Vec::new(alloc),
            helps: Vec::new(alloc),
            commands: Vec::new(alloc),
            lines: Vec::new(alloc),
        }
    }

    /// The prompt, if a line tells one.
    pub fn prompt(&self) -> Option<&Name>
        ensures { option_copied result ≡ self.now.prompt }
    {
        self.prompt.as_ref()
    }

    /// The names of its lists.
    pub fn names(&self) -> &[Name]
        ensures { result.now ≡ self.now.names }
    {
        &self.names
    }

    /// Of each of its lists the names that it has from the start.
    pub fn lists(&self) -> &[NameList]
        ensures { result.now ≡ self.now.lists }
    {
        &self.lists
    }

    /// The help of keywords.
    pub fn helps(&self) -> &[KeywordHelp]
        ensures { result.now ≡ self.now.helps }
    {
        &self.helps
    }

    /// Its commands, one at least, in the order of their lines.
    pub fn commands(&self) -> &[Command]
        ensures { result.now ≡ self.now.commands }
    {
        &self.commands
    }

    /// Of each command the number of its line, from 1.
    pub fn lines(&self) -> &[usize]
        ensures { result.now ≡ self.now.lines }
    {
        &self.lines
    }

    // Adds what the line with a number says.
    fn push(&mut self, number: usize, saying: Saying) -> Result<(), AllocError>
        ensures { IfOk result (λ _. self.new ≡ with_saying self.old number saying) }
    {
        match saying {
            Saying::Nothing => {}
            Saying::Prompt(text) => self.prompt = Some(text),
            Saying::Listing(name, names) => {
                self.names.push(name)?;
                self.lists.push(names)?;
            }
            Saying::Help(help) => self.helps.push(help)?,
            Saying::Command(command) => {
                self.commands.push(command)?;
                self.lines.push(number)?;
            }
        }
        Ok(())
    }
}

// The fault of the line with a number.
fn at_line(number: usize, fault: Fault) -> TextFault
    ensures { result ≡ at_line number fault }
{
    TextFault {
        line: number,
        place: fault.place,
        reason: fault.reason,
    }
}

// What the lines of a text say.
fn read_lines(alloc: Global, text: &[u8]) -> Result<Result<Language, TextFault>, AllocError>
    ensures { IfOk result (λ read. read ≡ read_lines 1 nothing (lines text.now)) }
{
    let mut language = Language::nothing(alloc);
    let mut rest = text;
    let mut number = 1;
    while let Some(first) = first_line(rest) {
        let line = rest.split_at(first.end).0;
        match saying_of(alloc, &language.names, language.prompt.is_some(), line)? {
            Ok(saying) => language.push(number, saying)?,
            Err(fault) => return Ok(Err(at_line(number, fault))),
        }
        number += 1;
        rest = rest.split_at(first.next).1;
    }
    Ok(Ok(language))
}

/// The language that a text tells, line by line, each under what stands above it; or its first fault. A line feed ends
/// a line, and one carriage return before it is none of the line's. LongText where the text has more than 1,048,576
/// bytes, before anything else; then that of the first line that has one: of a prompt SecondPrompt where one stands
/// above, NoName where it is missing, BadByte and LongWord; of a list ManyLists, NoName, BadWord, LongWord, SameList
/// and SameName; of a help ManyWords, BadWord, LongWord, NoName, NoHelp and BadByte; of a command that of
/// `read_command`; and NoCommand where no line has a command.
#[tactic(auto, unfolding(crate::specs::Languages::language_of))]
pub fn read_language(alloc: Global, text: &[u8]) -> Result<Result<Language, TextFault>, AllocError>
    // [language]
    ensures { IfOk result (λ read. read ≡ language_of text.now) }
{
    if text.len() > TEXT_SIZE_LIMIT {
        return Ok(Err(at_line(
            1,
            Fault {
                place: 0,
                reason: Reason::LongText,
            },
        )));
    }
    match read_lines(alloc, text)? {
        Ok(language) => {
            if language.commands.is_empty() {
                return Ok(Err(at_line(
                    1,
                    Fault {
                        place: 0,
                        reason: Reason::NoCommand,
                    },
                )));
            }
            Ok(Ok(language))
        }
        Err(fault) => Ok(Err(fault)),
    }
}
