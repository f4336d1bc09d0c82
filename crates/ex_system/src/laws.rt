//! Laws of a run over a store.
ghost use Rattle.std.specs.Prelude.{◌≡◌, ◌≢◌, ◌^◌, ℕ, List, Some, IsTrue};
ghost use Rattle.cm_io.specs.declared.status.Status.{Status};
ghost use Rattle.cm_io.specs.declared.status.Status.TheVariants as status;
ghost use Rattle.ex_store.specs.State.{State};
ghost use Rattle.ex_system.specs.Disk.{Disk};
ghost use Rattle.ex_system.specs.Saving.{Saves};
ghost use Rattle.ex_system.specs.Start.{Began, InputCause, IsRun, Starts};
ghost use Rattle.ex_system.specs.declared.input.TheConstants.{IMAGE_LIMIT};

/// The most bytes of the file that a run begins from.
pub fn these_are_the_numbers()
    ensures { IMAGE_LIMIT ≡ 2 ^ 24 }
{}

/// What is saved is read again: where a run wrote its image to a file, a run that is to begin from that file begins in
/// the state that was written, and in no other; and it is refused in none of the ways in which a file is.
pub fn what_is_saved_is_read_again()
    ensures starts { (before now next : Disk) → (out : List ℕ) → (state : State) → (result : Status)
        → Saves before now out state result → result ≢ status.HostFault → IsTrue before.tells → IsTrue next.tells
        → next.files out ≡ now.files out → Starts next (Some out) state }
    ensures began { (before now next : Disk) → (out : List ℕ) → (state start : State) → (result : Status)
        → Saves before now out state result → result ≢ status.HostFault → IsTrue before.tells → IsTrue next.tells
        → next.files out ≡ now.files out → Began next (Some out) start → start ≡ state }
    ensures taken { (before now next : Disk) → (out : List ℕ) → (state : State) → (result later : Status)
        → Saves before now out state result → result ≢ status.HostFault → IsTrue before.tells → IsTrue next.tells
        → next.files out ≡ now.files out → InputCause next (Some out) later → IsRun later }
{}
