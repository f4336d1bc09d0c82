// The laws of runs and of displays, of one program and one display.
ghost use Rattle.std.specs.Prelude.{◌≡◌, [], ◌∷◌};
ghost use Rattle.cm_text.specs.declared.text.TheConstants.{JOIN};
ghost use Rattle.cm_run.specs.Shows.{row_after};

use cm_run::{Display, laws};
use eg_router::{Mode, Router};

// Of a line of three rows the last row of the screen holds the third, each TAB as a space, and nothing of the prompt.
fn the_last_row_holds_the_third()
    ensures { row_after (64 ∷ []) (65 ∷ JOIN ∷ 66 ∷ JOIN ∷ 9 ∷ 67 ∷ []) ≡ 32 ∷ 67 ∷ [] }
{}

// The plain screen, as one of the displays.
struct PlainScreen;

impl Display for PlainScreen {
    ghost use Rattle.tt_screen.specs.Grid as grid;
    ghost use Rattle.tt_screen.specs.Holds as held;
    ghost use Rattle.tt_screen.proofs.HeldTexts.{screen_is_a_display};

    ghost State = { grid.Grid };

    ghost feed = { grid.feed };

    ghost holds = { held.Holds };

    ghost is_display = { screen_is_a_display };
}

#[test]
fn the_laws_of_displays_hold() {
    laws::the_prompts_are_printed();
    laws::a_prompt_begins_a_line::<PlainScreen>();
    laws::a_key_keeps_the_screen::<PlainScreen>();
    laws::a_reply_ends_its_line::<PlainScreen>();
    laws::a_run_keeps_the_screen::<Router, PlainScreen>();
    laws::a_line_program_keeps_the_screen::<Router, PlainScreen>();
    eg_router::laws::a_new_router_keeps_the_screen::<PlainScreen>();
    laws::a_line_without_a_join_is_one_row();
    laws::a_row_begins_after_a_join();
    the_last_row_holds_the_third();
}

#[test]
fn the_laws_of_runs_hold() {
    laws::only_a_line_that_is_done_acts::<Router>();
    laws::nothing_acts_before_its_line_is_logged::<Router>();
    laws::a_cut_run_is_a_beginning::<Router>();
    laws::what_stands_at_a_cut_is_exact::<Router>();
    laws::a_run_shows_what_its_first_keys_show::<Router>();
    laws::a_run_leaves_where_its_keys_lead::<Router>();
    laws::the_counter_is_the_sum_over_the_keys::<Router>();
    laws::a_quiet_run_goes_to_its_end();
    laws::these_are_the_numbers();
    laws::a_line_that_is_not_confirmed_does_not_act::<Router>();
    laws::a_raw_key_does_its_acts::<Router>();
    laws::an_idle_application_changes_where_a_line_is_confirmed::<Router, Mode>();
    laws::a_line_program_changes_where_a_line_is_confirmed::<Router>();
    laws::a_line_program_keeps_its_lines::<Router>();
}
