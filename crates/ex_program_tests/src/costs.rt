// What lines of the EXEC's grammar cost to parse, by example.
ghost use Rattle.std.specs.Prelude.{◌≡◌, ◌∷◌, ◌++◌, [], codes, false};
ghost use Rattle.cm_blocks.specs.KeptParse.{cost};
ghost use Rattle.ex_grammar.specs.declared.node.TheConstants.{COMMANDS};
ghost use Rattle.ex_store.specs.State.{State};
ghost use Rattle.cm_run.specs.Event.{trials_of};
ghost use Rattle.cm_run.specs.Semantics.{setting_of};
ghost use Rattle.ex_take.specs.Exec.{exec_semantics};
ghost use Rattle.ex_take.specs.ExecState.{exec_start};
ghost use Rattle.ex_program.specs.ExecRun.{exec_trace};

// The counter takes no bytes, so that no run can show it. Whatever the files are:
//
// - Where the blank after a keyword goes, nothing is kept, since the keyword ended at it: 2 for the end of the line, 4
//   for the keyword.
// - A byte more of a file costs its own trial alone, 5 for two bytes that want more and for the comma that may stand
//   in their place; keyword and guide word are kept.
// - The same afresh: besides, 2 for the end of the line, 5 for the keyword and 2 for the guide word.
// - `DIR`, a blank and DEL: 4, 5 and 6 for the letters, 8 for the blank, which ends the keyword, and 6 for DEL, which
//   opens it again.
fn lines_cost_their_trials()
    ensures { (state : State)
        → (cost (setting_of exec_semantics (exec_start state)) COMMANDS (codes "DIR ") (codes "DIR") ≡ 6)
        × (cost (setting_of exec_semantics (exec_start state)) COMMANDS (codes "DIR A") (codes "DIR AB") ≡ 5)
        × (cost (setting_of exec_semantics (exec_start state)) COMMANDS [] (codes "DIR AB") ≡ 14)
        × (trials_of (exec_trace false state [] (codes "DIR " ++ 127 ∷ [])) ≡ 29) }
{}

#[test]
fn counts_what_lines_cost() {
    lines_cost_their_trials();
}
