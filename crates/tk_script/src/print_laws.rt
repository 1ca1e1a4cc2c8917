ghost use Rattle.tk_script.specs.PrintLaws.{PrintsScripts, PrintsTapes, PrintsKeyed, PrintsDrawn};
ghost use Rattle.tk_script.specs.PrintLaws.{PrintsRelayed};
ghost use Rattle.tk_script.specs.PrintLaws.{PrintsViews, PrintsMirrors};

/// What is printed is read back, with more text after it and alone: the text of a printed script
/// of keys, and that of a printed script of drawn words and a printed tape, spell that script; so
/// do they in the other forms, with the lines of a history between. `parse` answers with what a
/// text spells, so it answers with the same script: `parse_printed` says that of the calls.
pub fn printed_reads()
    ensures script { PrintsScripts }
    ensures tape { PrintsTapes }
    ensures keyed { PrintsKeyed }
    ensures relayed { PrintsRelayed }
    ensures drawn { PrintsDrawn }
    ensures views { PrintsViews }
    ensures mirrors { PrintsMirrors }
{}
