// The hooks of a program, and what they are asked.
ghost use Rattle.std.specs.Prelude.{◌≡◌, ◌↔◌, ◌<◌, ◌≤◌, ◌∷◌, ◌++◌, [], length, IsOk, IfErr, OnOk, Some};

use crate::{Answer, Hook, Lent, RuleSet, Tail};
use arrayvec::ArrayVec;
use cm_text::{LINE_LIMIT, Name};
use std::marker::Model;

/// What a hook has said of an atom. It comes from `Hooks::ask` alone.
#[derive(Debug, Drop)]
pub struct Verdict {
    answer: Answer,
}

impl Model for Verdict {
    ghost use Rattle.cm_hooks.specs.declared.answer.Answer.{Answer};

    ghost Value = { Answer };

    ghost view = { λ verdict. verdict.answer };
}

impl Verdict {
    /// The answer.
    pub fn answer(&self) -> Answer
        ensures { result ≡ self.now }
    {
        self.answer
    }
}

/// The most hooks that a program has.
pub const HOOKS_LIMIT: usize = 16;

/// The hooks of a program, at most 16, each at the place of its id.
#[derive(Drop)]
pub struct Hooks<R> {
    hooks: ArrayVec<Option<Hook<R>>, HOOKS_LIMIT>,
}

impl<R: RuleSet> Hooks<R> {
    ghost use Rattle.cm_hooks.specs.Ties.{IsTied, Ties, count, held, id_of};

    /// No hooks.
    pub fn new() -> Hooks<R>
        ensures none { held result ≡ [] }
        ensures ties { Ties R.meant result }
    {
        Hooks {
            hooks: ArrayVec::new(),
        }
    }

    /// How many hooks there are.
    pub fn len(&self) -> u8
        ensures value { result ≡ count self.now }
        ensures most { result ≤ HOOKS_LIMIT }
    {
        self.hooks.len() as u8
    }

    /// Adds a hook after the others. It comes back, and nothing changes, exactly where 16 are held already
    /// or its id is not the number held.
    pub fn push(&mut self, hook: Hook<R>) -> Result<(), Hook<R>>
        requires hooks { Ties R.meant self.old }
        requires hook { IsTied R.meant hook }
        ensures fits { IsOk result ↔ ((count self.old < HOOKS_LIMIT) × (id_of hook ≡ count self.old)) }
        ensures added { OnOk result (held self.new ≡ held self.old ++ Some hook ∷ []) }
        ensures refused { IfErr result (λ back. (back ≡ hook) × (self.new ≡ self.old)) }
        ensures ties { Ties R.meant self.new }
    {
        if self.hooks.is_full() || usize::from(hook.id()) != self.hooks.len() {
            return Err(hook);
        }
        self.hooks.push(Some(hook));
        Ok(())
    }

    // The hook at its id.
    fn hook(&self, id: u8) -> &Hook<R>
        requires hooks { Ties R.meant self.now }
        requires id { id < count self.now }
        ensures value { id_of result.now ≡ id }
        ensures ties { IsTied R.meant result.now }
    {
        match &self.hooks[usize::from(id)] {
            Some(hook) => hook,
            None => unreachable!(),
        }
    }

    /// What the hook with this id says of an atom.
    pub fn ask(&self, id: u8, atom: &[u8]) -> Verdict
        requires hooks { Ties R.meant self.now }
        requires id { id < count self.now }
        requires short { length atom.now ≤ LINE_LIMIT }
        ensures { result ≡ R.meant.verdict id atom.now }
    {
        Verdict {
            answer: self.hook(id).judge(atom),
        }
    }

    /// How the hook with this id completes an atom.
    pub fn complete(&self, id: u8, atom: &[u8]) -> Tail
        requires hooks { Ties R.meant self.now }
        requires id { id < count self.now }
        requires short { length atom.now ≤ LINE_LIMIT }
        ensures { result ≡ R.meant.completion id atom.now }
    {
        self.hook(id).complete(atom)
    }

    /// The help text of the hook with this id.
    pub fn help(&self, id: u8) -> Name
        requires hooks { Ties R.meant self.now }
        requires id { id < count self.now }
        ensures { result ≡ R.meant.help id }
    {
        self.hook(id).help()
    }

    /// The hooks, lent to what asks them.
    pub fn lend(&self) -> Lent<'_, R>
        ensures { result.hooks.now ≡ self.now }
    {
        Lent { hooks: self }
    }
}
