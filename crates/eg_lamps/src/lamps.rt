// The lamps, what a command makes of them, and what it shows.
ghost use Rattle.std.specs.Prelude.{◌≡◌, ◌≤◌, ◌++◌, length, map};
ghost use Rattle.cm_text.specs.ScreenBytes.{end_of_line};
ghost use Rattle.cm_text.specs.declared.name.TheConstants.{NAME_LIMIT};
ghost use Rattle.cm_hooks.specs.Among.{choice_meanings};
ghost use Rattle.cm_hooks.specs.AmongLaws.{choices_lawful};
ghost use Rattle.cm_io.specs.Pieces.{shown_lines};
ghost use Rattle.cm_io.specs.Writer.{Writes};
ghost use Rattle.eg_lamps.specs.Lamps.{changed, dark, dark_lamps, lamp_line, obeyed, reply, room_help, rooms};
ghost use Rattle.eg_lamps.specs.Lamps.{rooms_are_names};

use cm_hooks::{Choices, RuleSet};
use cm_io::{Sink, Writer};
use cm_text::{NAME_LIMIT, Name, end_of_line};

// The rooms, in the order of their numbers.
const ROOMS: [&str; 4] = ["HALL", "KITCHEN", "STAIRS", "STUDY"];

/// How bright a lamp may be. A dark one has 0.
pub const BRIGHTEST: u64 = 100;

/// The lamp of a room.
#[derive(Debug, Drop)]
pub struct Lamp {
    /// The room.
    pub room: Name,
    /// How bright it is, from 0 to 100.
    pub brightness: u64,
    /// What is noted of it.
    pub note: Name,
}

/// What a command changes of a lamp.
#[derive(Debug, Drop)]
pub enum Change {
    /// SET: it is to be this bright.
    Set(u64),
    /// DIM: it is to be darker by so much.
    Dim(u64),
    /// NAME: this is to be noted of it.
    Note(Name),
}

/// What a confirmed line commands. A room goes by its number, from 0.
#[derive(Debug, Drop)]
pub enum Command {
    /// Nothing: the line is empty.
    Nothing,
    /// SET, DIM and NAME: to change the lamp of a room.
    Change { room: u64, change: Change },
    /// LIST: to show all lamps.
    List,
    /// QUIT: to end the run.
    Quit,
}

/// What is said of the one kind of field, a room: rules to be asked, and what functions that are stored are to mean.
#[derive(Clone, Copy, Debug)]
pub struct RoomRules;

impl Choices for RoomRules {
    ghost choices = { rooms };

    ghost are_names = { rooms_are_names };

    ghost help_text = { room_help };

    fn names(&self) -> &[&str] {
        &ROOMS
    }

    #[tactic(auto, unfolding(crate::specs::Lamps::room_help))]
    fn help(&self) -> Name {
        Name::new("room")
    }
}

impl RuleSet for RoomRules {
    ghost meant = { choice_meanings rooms room_help };

    ghost lawful = { choices_lawful rooms room_help rooms_are_names };
}

/// The lamps of all rooms, dark and with no notes.
pub fn dark_lamps() -> [Lamp; 4]
    ensures { result ≡ dark_lamps }
{
    let [hall, kitchen, stairs, study] = ROOMS;
    [dark(hall), dark(kitchen), dark(stairs), dark(study)]
}

fn dark(room: &str) -> Lamp
    requires { length room.now ≤ NAME_LIMIT }
    ensures { result ≡ dark room.now }
{
    Lamp {
        room: Name::new(room),
        brightness: 0,
        note: Name::new(""),
    }
}

/// Does what a command says. A room that there is not changes nothing.
#[tactic(auto, using(std::proofs::lemmas::Option::slice_get_read, std::proofs::lemmas::Option::slice_get_past))]
pub fn obey(command: Command, lamps: &mut [Lamp])
    // [lamp]
    ensures { lamps.new ≡ obeyed command lamps.old }
{
    if let Command::Change { room, change } = command {
        let room = room as usize;
        if room < lamps.len() {
            apply(change, &mut lamps[room]);
        }
    }
}

// Changes a lamp. A brightness past the limit is refused.
fn apply(change: Change, lamp: &mut Lamp)
    ensures { lamp.new ≡ changed change lamp.old }
{
    match change {
        Change::Set(level) if level <= BRIGHTEST => lamp.brightness = level,
        Change::Set(_) => {}
        Change::Dim(by) => lamp.brightness = lamp.brightness.saturating_sub(by),
        Change::Note(note) => lamp.note = note,
    }
}

/// Writes the lines that a command shows, which LIST and a refused SET have.
#[tactic(auto, using(cm_io::proofs::Texts::lines), unfolding(crate::specs::Lamps::too_bright))]
pub fn put_reply<S: Sink>(command: &Command, lamps: &[Lamp], out: &mut Writer<'_, S>)
    ensures { Writes S.Sink out.old out.new (shown_lines (reply command.now lamps.now)) }
{
    match command {
        Command::Change {
            change: Change::Set(level),
            ..
        } if *level > BRIGHTEST => out.put_line(b"?Brightness is 0 to 100"),
        Command::List => put_lamps(lamps, out),
        _ => {}
    }
}

#[tactic(auto, using(cm_io::proofs::Texts::each_line))]
fn put_lamps<S: Sink>(lamps: &[Lamp], out: &mut Writer<'_, S>)
    ensures { Writes S.Sink out.old out.new (shown_lines (map lamp_line lamps.now)) }
{
    for lamp in lamps {
        put_lamp(lamp, out);
    }
}

// Writes the line of a lamp: `HALL 40`, and the note after it.
#[tactic(auto, using(cm_io::proofs::Texts::texts), unfolding(crate::specs::Lamps::lamp_line))]
fn put_lamp<S: Sink>(lamp: &Lamp, out: &mut Writer<'_, S>)
    ensures { Writes S.Sink out.old out.new (lamp_line lamp.now ++ end_of_line) }
{
    let note = lamp.note.as_bytes();
    out.put(lamp.room.as_bytes());
    out.put(b" ");
    out.put_decimal(lamp.brightness);
    out.put(if note.is_empty() { b"" } else { b" " });
    out.put(note);
    out.put(end_of_line());
}
