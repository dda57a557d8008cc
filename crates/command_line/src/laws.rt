// Laws of the command line.
ghost use Rattle.std.specs.Prelude.{◌≡◌, List, IfSome, is_some};
ghost use Rattle.clap.specs.Walk.{Text};
ghost use Rattle.command_line.specs.Arguments.{HasSettings, command_in, home_in, is_taken};

/// Valid arguments, and no others, name a folder and give a command; and its settings, if it has some, are such that a
/// log file and a node may have them.
pub fn right_words_give_values()
    ensures home { (args : List Text) → is_some (home_in args) ≡ is_taken args }
    ensures command { (args : List Text) → is_some (command_in args) ≡ is_taken args }
    ensures bounded { (args : List Text) → IfSome (command_in args) HasSettings }
{}
