//! Laws of the definitions, for proofs alone: the function here does nothing, and its contract is the laws.
ghost use Rattle.std.specs.Prelude.{IfOk, List, Option, ℕ};
ghost use Rattle.clap.specs.Words.{Row};
ghost use Rattle.sazh_command.specs.Synopsis.{asked_by};
ghost use Rattle.sazh_command.specs.Laws.{IsAskable, EncryptsAsAge, DecryptsAsAge, PartsByOptions};

/// What is true of command lines.
///
/// - `askable`: each command that is asked for has a recipient or an identity, and its numbers are below 2^64.
/// - `encrypts`: some words that ask to encrypt, written as for `age` and by the command, ask for the same.
/// - `decrypts`: the same, to decrypt.
/// - `parts`: the same of a part, by options and by operands.
pub fn command_laws()
    ensures askable { (rows : List Row) (met : Option (List ℕ × List Row)) → IfOk (asked_by rows met) IsAskable }
    ensures encrypts { EncryptsAsAge }
    ensures decrypts { DecryptsAsAge }
    ensures parts { PartsByOptions }
{}
