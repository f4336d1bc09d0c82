// What a chain answers: fields, and how a parse ends.
ghost use Rattle.std.specs.Prelude.{◌≡◌};

use crate::Role;
use cm_fields::{Code, Value};
use std::marker::Model;

/// The most fields of a line.
pub const FIELD_LIMIT: usize = 64;

/// A field that a chain took from a text. Only `try_chain` makes one, by a trial that is counted, and it
/// cannot be cloned; so who holds a field holds what a counted trial answered. Contracts see its parts.
#[derive(Debug, Drop)]
pub struct Field {
    pub(crate) node: u16,
    pub(crate) block: u8,
    pub(crate) value: Value,
    pub(crate) start: u16,
    pub(crate) end: u16,
    pub(crate) need: u16,
    pub(crate) defaulted: bool,
    pub(crate) role: Role,
    pub(crate) next: u16,
}

impl Model for Field {
    ghost use Rattle.cm_blocks.specs.FieldView.{FieldView};

    ghost Value = { FieldView };

    ghost view = { λ field. record {
      node = field.node;
      block = field.block;
      value = field.value;
      start = field.start;
      end = field.end;
      need = field.need;
      defaulted = field.defaulted;
      role = field.role;
      next = field.next;
    } };
}

impl Field {
    /// The node whose chain took it.
    pub fn node(&self) -> u16
        ensures { result ≡ self.now.node }
    {
        self.node
    }

    /// The number of the block in that chain, from 0.
    pub fn block(&self) -> u8
        ensures { result ≡ self.now.block }
    {
        self.block
    }

    /// What it stands for. The spans of a defaulted field are places in the node's default, those of any
    /// other places in the text.
    pub fn value(&self) -> &Value
        ensures { result.now ≡ self.now.value }
    {
        &self.value
    }

    /// The place where it begins, past blanks and comments.
    pub fn start(&self) -> u16
        ensures { result ≡ self.now.start }
    {
        self.start
    }

    /// The place after it; of a defaulted field its start.
    pub fn end(&self) -> u16
        ensures { result ≡ self.now.end }
    {
        self.end
    }

    /// How many bytes of the text decide it: on every text that begins with these it is the same field.
    pub fn need(&self) -> u16
        ensures { result ≡ self.now.need }
    {
        self.need
    }

    /// Whether it was taken from the node's default.
    pub fn defaulted(&self) -> bool
        ensures { result ≡ self.now.defaulted }
    {
        self.defaulted
    }

    /// What it is for.
    pub fn role(&self) -> Role
        ensures { result ≡ self.now.role }
    {
        self.role
    }

    /// The node that follows it.
    pub fn next(&self) -> u16
        ensures { result ≡ self.now.next }
    {
        self.next
    }
}

/// Where a line that is not finished has come to.
#[derive(Clone, Copy, Debug, PartialEq, Eq)]
pub struct Open {
    /// The node whose chain is tried.
    pub node: u16,
    /// The number of the block that wants more bytes; none in a comment that is not ended.
    pub block: Option<u8>,
    /// The place from which it is tried.
    pub at: u16,
}

/// Why and where a text is refused.
#[derive(Clone, Copy, Debug, PartialEq, Eq)]
pub struct Fault {
    /// The refusal of the last block of the chain, or the last reason of the program's own (`Code::Own`) where a block
    /// gave one.
    pub code: Code,
    /// The node whose chain refused.
    pub node: u16,
    /// The place from which it was tried.
    pub at: u16,
}

/// What a chain makes of a text from a place on.
#[derive(Debug, Drop)]
pub enum Chain {
    /// It takes a field.
    Field(Field),
    /// The line is confirmed; the place of its carriage return.
    Done(u16),
    /// No block takes a field here, however the text goes on.
    Fault(Fault),
    /// The text ends before the chain can decide.
    Open(Open),
}

/// What is after the last field of a parse.
#[derive(Clone, Copy, Debug, PartialEq, Eq)]
pub enum Ending {
    /// The line may go on.
    Open(Open),
    /// The line is finished and confirmed.
    Done,
    /// The text is refused, however it goes on.
    Fault(Fault),
}
