//! Laws of the spooler.
ghost use Rattle.std.specs.Prelude.{◌≡◌, ◌≢◌, ◌⊎◌, ◌∷◌, ℕ, List, [], Some, IsTrue};
ghost use Rattle.cm_io.specs.Contents.{Contents};
ghost use Rattle.cm_io.specs.declared.status.Status.{Status};
ghost use Rattle.cm_io.specs.declared.status.Status.TheVariants as status;
ghost use Rattle.ex_store.specs.State.{State};
ghost use Rattle.ex_store.specs.declared.queue.QueueEntry.{QueueEntry};
ghost use Rattle.ex_system.specs.Disk.{Disk};
ghost use Rattle.ex_system.specs.Saving.{Saves};
ghost use Rattle.ex_system.specs.Start.{Began};
ghost use Rattle.ex_spool.specs.Among.{StandsIn, WasShown};
ghost use Rattle.ex_spool.specs.Pages.{form_feed};
ghost use Rattle.ex_spool.specs.Spool.{pages, pages_of, without_due};
ghost use Rattle.ex_spool.specs.RunEnd.{Printed};
ghost use Rattle.ex_spool.specs.declared.body.TheConstants.{PAGE_ROWS};
ghost use Rattle.ex_spool.specs.declared.due.TheConstants.{DAY_SECONDS};
ghost use Rattle.ex_spool.specs.declared.row.TheConstants.{WIDEST_ROW};

use ex_system::laws::what_is_saved_is_read_again;

/// A day has 86,400 seconds, a page 60 rows, and a row at most 200 bytes. Byte 12 ends a page.
#[tactic(auto, unfolding(crate::specs::Pages::form_feed))]
pub fn these_are_the_numbers()
    ensures day { DAY_SECONDS ≡ 86400 }
    ensures rows { PAGE_ROWS ≡ 60 }
    ensures width { WIDEST_ROW ≡ 200 }
    ensures feed { form_feed ≡ 12 ∷ [] }
{}

/// An entry leaves the queue of a written image only where all its pages were shown: after a run that printed, the
/// host is as it was, or the entry is in the queue of the image, or the screen was given all its pages.
pub fn an_entry_leaves_only_where_its_pages_were_shown()
    ensures { (start : State) → (moment : ℕ) → (out : List ℕ) → (before now : Contents) → (f g : ℕ)
        → (loaded after : Disk) → (result : Status) → (entry : QueueEntry)
        → Printed start moment out before now f g loaded after result → StandsIn start.queue entry
        → (after ≡ loaded)
        ⊎ (StandsIn (without_due moment start).queue entry ⊎ WasShown before now (pages_of start entry)) }
{}

/// What was printed is printed no more: a second run at the same moment, from the image that the first has written,
/// shows no page, and leaves what it began with.
pub fn what_was_printed_is_printed_no_more()
    ensures none { (moment : ℕ) → (state : State) → pages moment (without_due moment state) ≡ [] }
    ensures same { (moment : ℕ) → (state : State)
        → without_due moment (without_due moment state) ≡ without_due moment state }
    ensures again { (before now next : Disk) → (out : List ℕ) → (start second : State) → (moment : ℕ)
        → (result : Status) → Saves before now out (without_due moment start) result
        → result ≢ status.HostFault → IsTrue before.tells → IsTrue next.tells → next.files out ≡ now.files out
        → Began next (Some out) second → (pages moment second ≡ []) × (without_due moment second ≡ second) }
{
    what_is_saved_is_read_again();
}
