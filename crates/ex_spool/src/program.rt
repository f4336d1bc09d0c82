// The program over what is outside of it.
ghost use Rattle.std.specs.Prelude.{◌≡◌, ◌⊎◌, ◌↔◌, None, Some, IsTrue};
ghost use Rattle.std.specs.Option.{option_map};
ghost use Rattle.cm_io.specs.Clock.{next_moment};
ghost use Rattle.cm_io.specs.Contents.{AddsPart, add};
ghost use Rattle.ex_image.specs.Image.{image_text};
ghost use Rattle.ex_store.specs.State.{State};
ghost use Rattle.ex_system.specs.WordViews.{form_view};
ghost use Rattle.ex_system.specs.Disk.{disk_of};
ghost use Rattle.ex_system.specs.Form.{Form};
ghost use Rattle.ex_system.specs.Messages.{message};
ghost use Rattle.ex_system.specs.Quiet.{IsQuiet};
ghost use Rattle.ex_system.specs.Saving.{HostCause};
ghost use Rattle.ex_spool.specs.Spool.{pages, without_due};
ghost use Rattle.ex_spool.specs.RunEnd.{AreKept, Asks, AtMoment, Course, IsPrinting, ScreenCause, Stands, StartCause, form_of, scene, usage};

use crate::due::drop_due;
use crate::pages::show_pages;
use cm_io::{Clock, Host, Put, Sink, Status, Words};
use ex_system::{as_pair, finish, in_out, refuse, refuse_usage, start};
use std::alloc::Global;

// What the words ask for.
#[tactic(auto, unfolding(crate::specs::RunEnd::form_of))]
fn form_of(words: &Words) -> Option<ex_system::Form<'_>>
    ensures { option_map form_view result ≡ form_of words.now }
{
    match as_pair(words) {
        Some(pair) => in_out(false, pair.first, pair.second),
        None => None,
    }
}

// What is shown where the words ask for nothing that the program does.
#[tactic(auto, unfolding(crate::specs::RunEnd::usage))]
fn usage() -> &'static str
    ensures { result.now ≡ usage }
{
    "Usage: spool20 IN OUT"
}

// Prints what is due and writes the image without it, as a form asks.
fn print_form<H: Host, S: Sink, C: Clock>(
    alloc: Global,
    form: &ex_system::Form<'_>,
    host: &mut H,
    screen: &mut S,
    clock: &mut C,
) -> Status
    ensures { Course (IsTrue C.tells) (form_view form.now)
        (scene S.Sink screen.old C.Clock clock.old H.Host host.old)
        (scene S.Sink screen.new C.Clock clock.new H.Host host.new) result }
{
    let mut store = match start(alloc, form.input, host) {
        Ok(store) => store,
        Err(status) => return refuse(status, screen),
    };
    let moment = clock.now();
    match show_pages(&store, moment, screen) {
        Put::Done => {
            drop_due(&mut store, moment);
            finish(Status::Done, &store, form.out, host, screen)
        }
        Put::Failed => Status::WriteFault,
    }
}

/// The program `spool20`: shows the pages of the entries of the print queue that are due, and writes the image without
/// them.
///
/// `words` are `IN OUT`. The image in the file IN of `host` is read, and one moment of `clock` is taken; an entry is
/// due where it has no day, or its day has come by then. The pages of all entries that are due are shown on `screen`,
/// in the order of the queue, and then the image without these entries is written to the file OUT. After the reading
/// no memory is asked for.
pub fn spool20<H: Host, S: Sink, C: Clock>(
    alloc: Global,
    words: &Words,
    host: &mut H,
    screen: &mut S,
    clock: &mut C,
) -> Status
    // When each status may come.
    ensures host_cause { HostCause (H.faults host.old) (H.faults host.new) result }
    ensures cause { ScreenCause (S.faults screen.old) (S.faults screen.new) result }
    ensures printing { IsPrinting result }
    ensures usage { (result ≡ Status.Usage) ↔ (form_of words.now ≡ None) }
    // And by the file IN: NoImage exactly where there is none, ImageTooLarge exactly where it has more bytes than any
    // image, BadImage exactly where its bytes are no image, with the place and the kind of the first wrong record.
    ensures start { StartCause (disk_of H.Host host.old) (form_of words.now) result }

    // [due-entry] Where the run is Done, the screen was given the pages of the entries that are due, in their order ..
    ensures shown { IsTrue C.tells → result ≡ Status.Done
        → (form : Form) → (start : State) → Asks (form_of words.now) (disk_of H.Host host.old) form start
        → S.contents screen.new ≡ add (S.contents screen.old) (pages (next_moment (C.left clock.old)) start) }
    // [printed-entry] .. and OUT holds the image of the state without them.
    ensures saved { IsTrue C.tells → IsTrue H.tells → result ≡ Status.Done
        → (form : Form) → (start : State) → Asks (form_of words.now) (disk_of H.Host host.old) form start
        → H.files host.new form.out ≡ Some (image_text (without_due (next_moment (C.left clock.old)) start)) }
    // Whatever the clock tells: where the screen failed it was given a prefix of the pages of a moment, that of the
    // clock where it tells, and every file is as before.
    ensures cut { result ≡ Status.WriteFault
        → (form : Form) → (start : State) → Asks (form_of words.now) (disk_of H.Host host.old) form start
        → AtMoment (IsTrue C.tells) (C.left clock.old) (λ moment.
        AddsPart (S.contents screen.old) (S.contents screen.new) (pages moment start)
        × AreKept (disk_of H.Host host.old) (disk_of H.Host host.new)) }
    // Where memory runs out no page was shown, and every file is as before.
    ensures unshown { result ≡ Status.NoMemory
        → (form : Form) → (start : State) → Asks (form_of words.now) (disk_of H.Host host.old) form start
        → AddsPart (S.contents screen.old) (S.contents screen.new) (message Status.NoMemory)
        × AreKept (disk_of H.Host host.old) (disk_of H.Host host.new) }

    // What stands, whatever the status. Before any page the message alone is shown, IN is loaded once, no moment is
    // taken, and OUT is not created. Else all pages were shown, and then OUT was created once, was closed, and holds
    // the image without the entries that were printed, or where the host failed a prefix of it, and no other file
    // changes; or the screen failed within the pages, and the host is as it was.
    ensures stands { Stands (IsTrue C.tells) (form_of words.now)
        (scene S.Sink screen.old C.Clock clock.old H.Host host.old)
        (scene S.Sink screen.new C.Clock clock.new H.Host host.new) result }

    // With words of a form, an image in IN, and nothing outside that fails, the run is Done, or memory runs out.
    ensures complete { (form : Form) → (start : State) → Asks (form_of words.now) (disk_of H.Host host.old) form start
        → IsQuiet (S.faults screen.old) (S.faults screen.new) → IsQuiet (H.faults host.old) (H.faults host.new)
        → (result ≡ Status.Done) ⊎ (result ≡ Status.NoMemory) }
{
    let Some(form) = form_of(words) else {
        return refuse_usage(usage(), screen);
    };
    print_form(alloc, &form, host, screen, clock)
}
