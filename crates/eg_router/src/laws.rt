// Laws of the router.
ghost use Rattle.std.specs.Prelude.{◌≡◌, ℕ, List, [], ◌++◌, Result, map, take, true};
ghost use Rattle.std.specs.List.{flat_map};
ghost use Rattle.cm_text.specs.declared.name.TheConstants.{NAME_LIMIT};
ghost use Rattle.cm_fields.specs.Quoted.{unquoted};
ghost use Rattle.cm_hooks.specs.Meanings.{IsYes};
ghost use Rattle.cm_run.specs.Keeping.{KeepsLine};
ghost use Rattle.cm_run.specs.LineRun.{LineRun};
ghost use Rattle.cm_run.specs.LineSemantics.{lines_only};
ghost use Rattle.cm_run.specs.Observation.{Observation};
ghost use Rattle.eg_router.specs.Command.{upper};
ghost use Rattle.eg_router.specs.Configuration.{configuration, listing, quoted_byte, typed};
ghost use Rattle.eg_router.specs.Interfaces.{AreInterfaces, is_interface_name, may_enter};
ghost use Rattle.eg_router.specs.Rules.{address_verdict, new_name_verdict};
ghost use Rattle.eg_router.specs.Program.{router_semantics};
ghost use Rattle.eg_router.specs.Router.{configuring, obeyed_all, router_start};
ghost use Rattle.eg_router.specs.declared.grammar.TheConstants.{ADDRESS, CONFIGURATION_LINES, CONFIGURE, DESCRIPTION, ENABLE, END, EXIT, INTERFACE, INTERFACE_LINES, LINE_END, NO, PRIVILEGED_LINES, PROTOCOL_LINES, ROUTER, RUNNING, SHOW, SHUTDOWN, USER_LINES, VERSION};
ghost use Rattle.eg_router.specs.declared.interface.Interface.{Interface};
ghost use Rattle.eg_router.specs.declared.interfaces.TheConstants.{INTERFACE_LIMIT};
ghost use Rattle.eg_router.specs.declared.rules.TheConstants.{IPV4, NAME, NEW_NAME};

use crate::Router;
use cm_run::laws::a_line_program_keeps_the_screen;
use cm_run::{Display, Stop};

/// The commands of the configuration, done by a new router in the mode of configuration, make the same interfaces, and
/// leave it in that mode.
pub fn the_configuration_makes_the_same_router()
    ensures { (interfaces : List Interface) → AreInterfaces interfaces
        → obeyed_all (listing interfaces) (configuring []) ≡ configuring interfaces }
{}

/// What SHOW RUNNING-CONFIG shows is those commands as they are typed, a line each.
pub fn the_configuration_is_its_commands()
    ensures { (interfaces : List Interface) → configuration interfaces ≡ map typed (listing interfaces) }
{}

/// What is in a field of those lines is read as what it was written for: an address as it was typed, a description,
/// and the name of an interface.
pub fn the_fields_are_what_was_written()
    ensures address { (text : List ℕ) → IsYes (address_verdict text) → take NAME_LIMIT (unquoted text) ≡ text }
    ensures text { (text : List ℕ) → unquoted (flat_map quoted_byte text) ≡ text }
    ensures name { (name : List ℕ) → is_interface_name name ≡ true → upper name ≡ name }
{}

/// A name that INTERFACE takes in the line may be entered, so that the act refuses none.
pub fn a_name_that_is_taken_may_be_entered()
    ensures { (interfaces : List Interface) → AreInterfaces interfaces → (atom : List ℕ)
        → IsYes (new_name_verdict atom interfaces) → may_enter (upper atom) interfaces ≡ true }
{}

/// After each beginning of the keys that the run of a new router has taken, a display shows prompt and line, until the
/// router has ended: also where the prompt is the name of an interface that was made in the run.
pub fn a_new_router_keeps_the_screen<D: Display>()
    ensures { (before now : Observation Router) → (result : Result Unit Stop) → before.state ≡ router_start
        → LineRun router_semantics before now result → (taken rest : List ℕ)
        → (taken ++ rest) ++ now.keys ≡ before.keys
        → KeepsLine D.feed D.holds (lines_only router_semantics) before.state [] taken }
{
    a_line_program_keeps_the_screen::<Router, D>();
}

/// The numbers of the router: the most interfaces, the hooks, the codes of the keywords, and the nodes where lines
/// begin and where they end.
pub fn these_are_the_numbers()
    ensures interfaces { INTERFACE_LIMIT ≡ 16 }
    ensures hooks { (IPV4 ≡ 0) × (NAME ≡ 1) × (NEW_NAME ≡ 2) }
    ensures codes { (ADDRESS ≡ 1) × (CONFIGURE ≡ 2) × (DESCRIPTION ≡ 3) × (ENABLE ≡ 4) × (END ≡ 5) × (EXIT ≡ 6)
        × (INTERFACE ≡ 7) × (NO ≡ 8) × (ROUTER ≡ 9) × (RUNNING ≡ 10) × (SHOW ≡ 11) × (SHUTDOWN ≡ 12)
        × (VERSION ≡ 13) }
    ensures nodes { (USER_LINES ≡ 0) × (PRIVILEGED_LINES ≡ 1) × (CONFIGURATION_LINES ≡ 2) × (INTERFACE_LINES ≡ 3)
        × (PROTOCOL_LINES ≡ 4) × (LINE_END ≡ 5) }
{}
