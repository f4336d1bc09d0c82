// The numbers of the program.
ghost use Rattle.std.specs.Prelude.{◌≡◌, ◌^◌, ◌-◌};
ghost use Rattle.eg_template.specs.declared.grammar.TheConstants.{ADD, COMMANDS, LINE_END, QUIT};
ghost use Rattle.eg_template.specs.declared.program.TheConstants.{MOST};

/// The greatest sum, the codes of the commands, and the nodes where a line begins and where it ends.
pub fn these_are_the_numbers()
    ensures most { MOST ≡ 2 ^ 64 - 1 }
    ensures codes { (ADD ≡ 1) × (QUIT ≡ 2) }
    ensures nodes { (COMMANDS ≡ 0) × (LINE_END ≡ 1) }
{}
