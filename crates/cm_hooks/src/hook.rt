// One hook.
ghost use Rattle.std.specs.Prelude.{◌≡◌, ◌≤◌, length};
ghost use Rattle.cm_text.specs.declared.text.TheConstants.{LINE_LIMIT};

use crate::{Answer, RuleSet, Tail};
use cm_text::Name;
use std::marker::PhantomData;

type Verdicts = Box<dyn Fn(&[u8]) -> Answer>;

type Completions = Box<dyn Fn(&[u8]) -> Tail>;

type Helps = Box<dyn Fn() -> Name>;

/// What a program stores for one kind of field of its own, under an id: functions that judge an atom,
/// complete one, and give the help text. `R` says what the three mean.
#[derive(Drop)]
pub struct Hook<R> {
    id: u8,
    verdict: Verdicts,
    completion: Completions,
    help: Helps,
    rules: PhantomData<R>,
    ghost verdict_callable: { (atom : _) → length atom.now ≤ LINE_LIMIT → Verdicts.pre verdict atom },
    ghost completion_callable: { (atom : _) → length atom.now ≤ LINE_LIMIT → Completions.pre completion atom },
    ghost help_callable: { Helps.IsAlwaysCallable help },
}

impl<R: RuleSet> Hook<R> {
    ghost use Rattle.cm_hooks.specs.Ties.{Answers, IsCallable, IsTied, id_of};

    /// The hook with these functions. Each may be called on every atom of at most 255 bytes, and answers what
    /// is meant by the id.
    pub fn new(id: u8, verdict: Verdicts, completion: Completions, help: Helps) -> Hook<R>
        requires verdict { IsCallable (Verdicts.pre verdict) }
        requires completion { IsCallable (Completions.pre completion) }
        requires help { Helps.IsAlwaysCallable help }
        requires verdict_means { Answers (Verdicts.post verdict) (R.meant.verdict id) }
        requires completion_means { Answers (Completions.post completion) (R.meant.completion id) }
        requires help_means { (text : _) → Helps.post help text → text ≡ R.meant.help id }
        ensures value { id_of result ≡ id }
        ensures ties { IsTied R.meant result }
    {
        Hook {
            id,
            verdict,
            completion,
            help,
            rules: PhantomData,
        }
    }

    /// The id that it is stored under.
    pub fn id(&self) -> u8
        ensures { result ≡ id_of self.now }
    {
        self.id
    }

    // Whether it takes an atom.
    pub(crate) fn judge(&self, atom: &[u8]) -> Answer
        requires ties { IsTied R.meant self.now }
        requires short { length atom.now ≤ LINE_LIMIT }
        ensures { result ≡ R.meant.verdict (id_of self.now) atom.now }
    {
        (self.verdict)(atom)
    }

    // How it completes an atom.
    pub(crate) fn complete(&self, atom: &[u8]) -> Tail
        requires ties { IsTied R.meant self.now }
        requires short { length atom.now ≤ LINE_LIMIT }
        ensures { result ≡ R.meant.completion (id_of self.now) atom.now }
    {
        (self.completion)(atom)
    }

    // What the help says of it.
    pub(crate) fn help(&self) -> Name
        requires ties { IsTied R.meant self.now }
        ensures { result ≡ R.meant.help (id_of self.now) }
    {
        (self.help)()
    }
}
