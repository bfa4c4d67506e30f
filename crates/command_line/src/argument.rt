// What an argument of the command line is.
ghost use Rattle.std.specs.Prelude.{◌≡◌};
ghost use Rattle.command_line.specs.Argument.{kind_of};

#[derive(Clone, Copy, Debug, PartialEq, Eq)]
pub enum Argument {
    // Standard input.
    Input,
    File,
    // No option follows.
    EndOfOptions,
    Help,
    Version,
    UnknownOption,
}

// What an argument is: an option only where `--` has not ended them.
#[tactic(auto, unfolding(crate::specs::Argument::kind_of, crate::specs::Argument::option_or_file))]
pub fn classify(text: &[u8], options: bool) -> Argument
    ensures { result ≡ kind_of options text.now }
{
    match text {
        b"-" => Argument::Input,
        _ if !options => Argument::File,
        b"--" => Argument::EndOfOptions,
        b"--help" => Argument::Help,
        b"--version" => Argument::Version,
        [b'-', ..] => Argument::UnknownOption,
        _ => Argument::File,
    }
}
