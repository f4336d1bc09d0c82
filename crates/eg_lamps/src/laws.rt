// Laws of the lamps, and the numbers of the program.
ghost use Rattle.std.specs.Prelude.{◌≡◌, ◌^◌, ◌-◌};
ghost use Rattle.cm_run.specs.Idle.{EndsOnlyWhere};
ghost use Rattle.eg_lamps.specs.Command.{command_of};
ghost use Rattle.eg_lamps.specs.Program.{is_quit, lamp_semantics};
ghost use Rattle.eg_lamps.specs.declared.command.TheConstants.{NO_ROOM, STEP};
ghost use Rattle.eg_lamps.specs.declared.grammar.TheConstants.{COMMANDS, DIM, LINE_END, LIST, NAME, QUIT, SET};
ghost use Rattle.eg_lamps.specs.declared.lamps.TheConstants.{BRIGHTEST};

/// A key ends the run only where it confirms a line that commands QUIT.
pub fn only_quit_ends_the_run()
    ensures { EndsOnlyWhere lamp_semantics (λ session. is_quit (command_of session)) }
{}

/// The numbers of the lamps: how bright one may be, by how much DIM goes where the line does not say, the number that
/// no room has, the codes of the commands, and the nodes where a line begins and where it ends.
pub fn these_are_the_numbers()
    ensures brightest { BRIGHTEST ≡ 100 }
    ensures step { STEP ≡ 10 }
    ensures no_room { NO_ROOM ≡ 2 ^ 64 - 1 }
    ensures codes { (DIM ≡ 1) × (LIST ≡ 2) × (NAME ≡ 3) × (QUIT ≡ 4) × (SET ≡ 5) }
    ensures nodes { (COMMANDS ≡ 0) × (LINE_END ≡ 2) }
{}
