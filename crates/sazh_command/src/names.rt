//! The names of commands and operands.
ghost use Rattle.std.specs.Prelude.{◌≡◌, Some};
ghost use Rattle.sazh_command.specs.Messages.{operand_text};
ghost use Rattle.sazh_command.specs.Names.{command_named};

use std::fmt;

/// An operand of `part`, or an option whose value is a number.
#[derive(Clone, Copy, Debug)]
pub enum Operand {
    /// PLACE: the byte that a part begins with, from 0 on.
    Place,
    /// COUNT: how many bytes a part has at most.
    Count,
    /// IN: the file that is read.
    Input,
    /// `--header-limit`: how many bytes a header may have.
    HeaderLimit,
}

impl fmt::Display for Operand {
    ghost output = { λ operand. Some (operand_text operand) };

    fn fmt<W: fmt::Write>(&self, f: &mut fmt::Formatter<W>) -> fmt::Result {
        f.write_str(match self {
            Operand::Place => "PLACE",
            Operand::Count => "COUNT",
            Operand::Input => "IN",
            Operand::HeaderLimit => "--header-limit",
        })
    }
}

/// What the word of a command names.
#[derive(Clone, Copy)]
pub enum CommandName {
    Keygen,
    Encrypt,
    Decrypt,
    Part,
    Migrate,
    Rekey,
    Verify,
    Inspect,
}

/// The command of this name.
pub fn command_named(word: &str) -> Option<CommandName>
    ensures { result ≡ command_named word.now }
{
    match word {
        "keygen" => Some(CommandName::Keygen),
        "encrypt" => Some(CommandName::Encrypt),
        "decrypt" => Some(CommandName::Decrypt),
        "part" => Some(CommandName::Part),
        "migrate" => Some(CommandName::Migrate),
        "rekey" => Some(CommandName::Rekey),
        "verify" => Some(CommandName::Verify),
        "inspect" => Some(CommandName::Inspect),
        _ => None,
    }
}
