// Laws of the definitions, each the contract of a function that does nothing.
ghost use Rattle.command_words.specs.Commands.{OneCommand};

/// Words mean one command at most, however they are read.
pub fn one_command()
    ensures { OneCommand }
{}
