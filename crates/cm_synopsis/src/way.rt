// The ways through a command.
ghost use Rattle.std.specs.Prelude.{◌≡◌, ◌∷◌, ◌++◌, [], IfOk, length, map};
ghost use Rattle.cm_synopsis.specs.Ways.{begins_option, closed_walk, closed_way, first_walk, has, joined, last, linked, next_walk, opened_walk, part_walk, step_walk, walk_from, walked, way_of, with_range, with_start, with_step};

use crate::follow::is_start;
use crate::part::{Bracket, Part};
use std::alloc::{AllocError, Global};
use std::marker::Model;

/// A part of a command that reads something in a line: a keyword, a guide word, a field or a switch.
#[derive(Clone, Copy, Debug, PartialEq, Eq)]
pub struct Step {
    /// The place of the part in its command, from 0.
    pub part: usize,
    /// The least and the greatest number, where it is a field of numbers with a range.
    pub range: Option<(u32, u32)>,
    /// Whether it begins an alternative of `{ }`, so that a line has it once.
    pub option: bool,
}

/// That a step may come directly behind another. Steps are numbered from 1, and 0 is the start of the line.
#[derive(Clone, Copy, Debug, PartialEq, Eq)]
pub struct Link {
    /// The step before, or 0.
    pub from: usize,
    /// The step behind it.
    pub to: usize,
}

/// The ways through a command. Contracts see its steps, its links, and the steps behind which a line may end.
#[derive(Debug, Drop)]
pub struct Way {
    /// The steps, in the order in which they are written, numbered from 1.
    pub steps: Vec<Step>,
    /// Which step may come behind which.
    pub links: Vec<Link>,
    /// The steps behind which a line may end, or 0, where it may be empty.
    pub ends: Vec<usize>,
}

impl Model for Way {
    ghost use Rattle.cm_synopsis.specs.Ways.{Way};

    ghost Value = { Way };

    ghost view = { λ it. record { steps = it.steps.items; links = it.links.items; ends = it.ends.items } };
}

impl Way {
    // Puts a step behind the ends.
    fn push(&mut self, alloc: Global, part: usize, option: bool) -> Result<(), AllocError>
        ensures { IfOk result (λ _. self.new ≡ with_step self.old part option) }
    {
        let number = self.steps.len() + 1;
        connect(&mut self.links, &self.ends, &[number])?;
        self.steps.push(Step {
            part,
            range: None,
            option,
        })?;
        self.ends = vec![in alloc; number]?;
        Ok(())
    }

    // Gives the last step a range.
    fn set_range(&mut self, low: u32, high: u32) -> Result<(), AllocError>
        ensures { IfOk result (λ _. self.new
            ≡ record self.old { steps = with_range (low, high) (last self.old.steps) self.old.steps }) }
    {
        if let Some(step) = self.steps.pop() {
            self.steps.push(Step {
                range: Some((low, high)),
                ..step
            })?;
        }
        Ok(())
    }

    // Lets the last step come again.
    fn repeat(&mut self) -> Result<(), AllocError>
        ensures { IfOk result (λ _. self.new ≡ record self.old {
          links = linked self.old.links (length self.old.steps ∷ []) (length self.old.steps ∷ []);
        }) }
    {
        let number = self.steps.len();
        connect(&mut self.links, &[number], &[number])
    }

    // Ends a bracket.
    fn close(&mut self, frame: Frame) -> Result<(), AllocError>
        ensures { IfOk result (λ _. self.new ≡ closed_way frame.bracket frame self.old) }
    {
        match frame.bracket {
            Bracket::Optional => join(&mut self.ends, &frame.before),
            Bracket::Choice => {
                let mut ends = frame.after;
                join(&mut ends, &self.ends)?;
                self.ends = ends;
                Ok(())
            }
            Bracket::AnyOrder => {
                let mut ends = frame.after;
                join(&mut ends, &self.ends)?;
                connect(&mut self.links, &ends, &frame.starts)?;
                join(&mut ends, &frame.before)?;
                self.ends = ends;
                Ok(())
            }
        }
    }
}

// A bracket that is open: the steps behind which it stands, those at the ends of its alternatives so far, and the first
// ones of these.
#[derive(Debug, Drop)]
struct Frame {
    bracket: Bracket,
    before: Vec<usize>,
    after: Vec<usize>,
    starts: Vec<usize>,
}

impl Model for Frame {
    ghost use Rattle.cm_synopsis.specs.Ways.{Frame};

    ghost Value = { Frame };

    ghost view = { λ it. record {
      bracket = it.bracket;
      before = it.before.items;
      after = it.after.items;
      starts = it.starts.items;
    } };
}

// The way so far, the brackets that are open, and whether an alternative begins.
#[derive(Debug, Drop)]
struct Walk {
    way: Way,
    frames: Vec<Frame>,
    begins: bool,
}

impl Model for Walk {
    ghost use Rattle.cm_synopsis.specs.Ways.{Walk};

    ghost Value = { Walk };

    ghost view = { λ it. record { way = it.way; frames = it.frames.items; begins = it.begins } };
}

// Whether a number is one of some.
fn has(numbers: &[usize], number: usize) -> bool
    ensures { result ≡ has numbers.now number }
{
    numbers.iter().any(|it| *it == number)
}

// Adds to some numbers those of others that they have not.
fn join(numbers: &mut Vec<usize>, others: &[usize]) -> Result<(), AllocError>
    ensures { IfOk result (λ _. numbers.new.items ≡ joined numbers.old.items others.now) }
{
    for other in others {
        if !has(numbers, *other) {
            numbers.push(*other)?;
        }
    }
    Ok(())
}

// Adds links from a step to each of those.
fn connect_from(links: &mut Vec<Link>, from: usize, tos: &[usize]) -> Result<(), AllocError>
    ensures { IfOk result (λ _. links.new.items
        ≡ links.old.items ++ map (λ to. record { from = from; to = to }) tos.now) }
{
    for to in tos {
        links.push(Link { from, to: *to })?;
    }
    Ok(())
}

// Adds links from each of these steps to each of those.
fn connect(links: &mut Vec<Link>, froms: &[usize], tos: &[usize]) -> Result<(), AllocError>
    ensures { IfOk result (λ _. links.new.items ≡ linked links.old.items froms.now tos.now) }
{
    for from in froms {
        connect_from(links, *from, tos)?;
    }
    Ok(())
}

// Notes a step that begins an alternative of the innermost bracket.
fn note_start(frames: &mut Vec<Frame>, step: usize) -> Result<(), AllocError>
    ensures { IfOk result (λ _. frames.new.items ≡ with_start step (last frames.old.items) frames.old.items) }
{
    if let Some(mut frame) = frames.pop() {
        frame.starts.push(step)?;
        frames.push(frame)?;
    }
    Ok(())
}

impl Walk {
    // At the start of the line.
    fn new(alloc: Global) -> Result<Walk, AllocError>
        ensures { IfOk result (λ walk. walk ≡ first_walk) }
    {
        Ok(Walk {
            way: Way {
                steps: Vec::new(alloc),
                links: Vec::new(alloc),
                ends: vec![in alloc; 0]?,
            },
            frames: Vec::new(alloc),
            begins: false,
        })
    }

    // Whether an alternative in any order begins.
    fn begins_option(&self) -> bool
        ensures { result ≡ begins_option self.now }
    {
        match self.frames.last() {
            Some(frame) => self.begins && matches!(frame.bracket, Bracket::AnyOrder),
            None => false,
        }
    }

    // A part that reads something is a step.
    fn step(&mut self, alloc: Global, part: usize) -> Result<(), AllocError>
        ensures { IfOk result (λ _. self.new ≡ step_walk part self.old) }
    {
        let option = self.begins_option();
        if self.begins {
            note_start(&mut self.frames, self.way.steps.len() + 1)?;
        }
        self.way.push(alloc, part, option)
    }

    // A bracket opens.
    fn open(&mut self, alloc: Global, bracket: Bracket) -> Result<(), AllocError>
        ensures { IfOk result (λ _. self.new ≡ opened_walk bracket self.old) }
    {
        let before = self.way.ends.to_vec(alloc)?;
        self.frames.push(Frame {
            bracket,
            before,
            after: Vec::new(alloc),
            starts: Vec::new(alloc),
        })?;
        Ok(())
    }

    // The next alternative begins.
    fn alternate(&mut self, alloc: Global) -> Result<(), AllocError>
        ensures { IfOk result (λ _. self.new ≡ next_walk (last self.old.frames) self.old) }
    {
        if let Some(mut frame) = self.frames.pop() {
            join(&mut frame.after, &self.way.ends)?;
            self.way.ends = frame.before.to_vec(alloc)?;
            self.frames.push(frame)?;
        }
        Ok(())
    }

    // A bracket ends.
    fn close(&mut self) -> Result<(), AllocError>
        ensures { IfOk result (λ _. self.new ≡ closed_walk (last self.old.frames) self.old) }
    {
        match self.frames.pop() {
            Some(frame) => self.way.close(frame),
            None => Ok(()),
        }
    }

    // Goes on with a part, which is at this place of the command.
    fn take(&mut self, alloc: Global, place: usize, part: &Part) -> Result<(), AllocError>
        ensures { IfOk result (λ _. self.new ≡ part_walk place part.now self.old) }
    {
        match part {
            Part::Range(low, high) => self.way.set_range(*low, *high),
            Part::Again => self.way.repeat(),
            Part::Open(bracket) => self.open(alloc, *bracket),
            Part::Or => self.alternate(alloc),
            Part::Close(_) => self.close(),
            _ => self.step(alloc, place),
        }
    }

    // The same, and notes whether an alternative begins behind it.
    fn go_on(&mut self, alloc: Global, place: usize, part: &Part) -> Result<(), AllocError>
        ensures { IfOk result (λ _. self.new ≡ walked place part.now self.old) }
    {
        self.take(alloc, place, part)?;
        self.begins = is_start(Some(part));
        Ok(())
    }
}

/// The ways through a command with these parts, in a line that a user types. Each part that reads something is a step.
/// It may come behind each step that can stand directly before it: what is in `[ ]` may be left out, of `< | >` one
/// alternative comes, of `{ | }` any number of them in any order, and behind a field with `..` the same field again.
#[tactic(auto, unfolding(crate::specs::Ways::way_of))]
pub fn way_of(alloc: Global, parts: &[Part]) -> Result<Way, AllocError>
    ensures { IfOk result (λ way. way ≡ way_of parts.now) }
{
    let mut walk = Walk::new(alloc)?;
    for place in 0..parts.len() {
        walk.go_on(alloc, place, &parts[place])?;
    }
    Ok(walk.way)
}
