// The interfaces of the router.
ghost use Rattle.std.specs.Prelude.{◌≡◌, ◌≤◌, [], true, length};
ghost use Rattle.std.specs.List.{list_all};
ghost use Rattle.cm_text.specs.declared.name.TheConstants.{NAME_LIMIT};
ghost use Rattle.eg_router.specs.Interfaces.{AreInterfaces, begins_name, has, is_capital, is_interface_name, is_typed_byte, is_typed_name, may_enter, name_at, place, with_change, with_name, without_name};

use crate::{Change, Interface};
use arrayvec::ArrayVec;
use cm_text::{NAME_LIMIT, Name, is_word};
use std::cmp::Ordering;
use std::marker::Model;

/// The most interfaces.
pub const INTERFACE_LIMIT: usize = 16;

/// At most 16 interfaces, in the order of their names. Contracts see the list of them.
#[derive(Drop)]
pub struct Interfaces {
    items: ArrayVec<Interface, INTERFACE_LIMIT>,
}

impl Model for Interfaces {
    ghost use Rattle.std.specs.Prelude.{List};
    ghost use Rattle.eg_router.specs.Interfaces.{AreInterfaces};
    ghost use Rattle.eg_router.specs.declared.interface.Interface.{Interface};

    ghost Value = { List Interface };

    ghost view = { λ it. it.items.items };

    ghost invariant = { λ it. AreInterfaces it.items.items };
}

impl Interfaces {
    /// No interfaces.
    pub fn new() -> Interfaces
        ensures { result ≡ [] }
    {
        Interfaces {
            items: ArrayVec::new(),
        }
    }

    /// The interfaces.
    pub fn as_slice(&self) -> &[Interface]
        ensures value { result.now ≡ self.now }
        ensures lawful { AreInterfaces self.now }
    {
        &self.items
    }

    /// The name of the interface at a place, and none where there is no such interface.
    pub fn name_at(&self, at: usize) -> &str
        ensures value { result.now ≡ name_at at self.now }
        ensures within { length result.now ≤ NAME_LIMIT }
    {
        match self.as_slice().get(at) {
            Some(it) => it.name.as_str(),
            None => "",
        }
    }

    /// Whether the interface of this name is there, or may be made: it is a name, of 1 to 39 capital letters, digits,
    /// hyphens and points, of which the first is no point, and there are fewer than 16 others.
    pub fn may_enter(&self, name: &Name) -> bool
        ensures { result ≡ may_enter name.now self.now }
    {
        has(name, &self.items) || (is_interface_name(name.as_bytes()) && !self.items.is_full())
    }

    /// Makes the interface of this name, where there is none, and tells its place.
    pub fn enter(&mut self, name: &Name) -> usize
        requires { may_enter name.now self.old ≡ true }
        ensures place { result ≡ place name.now self.old }
        ensures made { self.new ≡ with_name name.now self.old }
    {
        let at = place(name, &self.items);
        self.make(at, name);
        at
    }

    // Makes the interface of this name at its place, where there is none.
    fn make(&mut self, at: usize, name: &Name)
        requires may_enter { may_enter name.now self.old ≡ true }
        requires place { at ≡ place name.now self.old }
        ensures { self.new ≡ with_name name.now self.old }
    {
        if !has(name, &self.items) {
            self.items
                .insert(at, Interface::new(Name::new(name.as_str())));
        }
    }

    /// Removes the interface of this name, where there is one.
    pub fn remove(&mut self, name: &Name)
        ensures { self.new ≡ without_name name.now self.old }
    {
        if has(name, &self.items) {
            self.items.remove(place(name, &self.items));
        }
    }

    /// Changes the interface at a place, where there is one.
    pub fn change(&mut self, at: usize, change: Change)
        ensures { self.new ≡ with_change at change self.old }
    {
        if at < self.items.len() {
            self.items[at].change(change);
        }
    }
}

// How many interfaces are below a name.
fn place(name: &Name, interfaces: &[Interface]) -> usize
    ensures value { result ≡ place name.now interfaces.now }
    ensures within { result ≤ length interfaces.now }
{
    interfaces
        .iter()
        .take_while(|it| it.name.cmp(name) == Ordering::Less)
        .count()
}

// Whether one has this name.
fn has(name: &Name, interfaces: &[Interface]) -> bool
    ensures { result ≡ has name.now interfaces.now }
{
    interfaces
        .iter()
        .any(|it| it.name.cmp(name) == Ordering::Equal)
}

// Whether a name may begin so.
fn begins_name(text: &[u8]) -> bool
    ensures { result ≡ begins_name text.now }
{
    match text {
        [] => false,
        [byte, ..] => *byte != b'.',
    }
}

// Whether a byte may be in the name of an interface as it is typed.
fn is_typed_byte(byte: u8) -> bool
    ensures { result ≡ is_typed_byte byte }
{
    is_word(byte) || byte == b'.'
}

fn are_typed_bytes(text: &[u8]) -> bool
    ensures { result ≡ list_all is_typed_byte text.now }
{
    text.iter().all(|byte| is_typed_byte(*byte))
}

// Whether one may have this name, once it is in upper case.
pub(crate) fn is_typed_name(text: &[u8]) -> bool
    ensures { result ≡ is_typed_name text.now }
{
    begins_name(text) && text.len() <= NAME_LIMIT && are_typed_bytes(text)
}

fn are_capital(text: &[u8]) -> bool
    ensures { result ≡ list_all is_capital text.now }
{
    text.iter().all(|byte| !byte.is_ascii_lowercase())
}

fn is_interface_name(text: &[u8]) -> bool
    ensures { result ≡ is_interface_name text.now }
{
    is_typed_name(text) && are_capital(text)
}
