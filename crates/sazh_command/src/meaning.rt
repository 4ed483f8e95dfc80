//! What a command asks for, once its words are read.
ghost use Rattle.std.specs.Prelude.{◌≡◌, ◌++◌, IfOk, OnOk, None, map, string_bytes, option_map};
ghost use Rattle.sazh_command.specs.Asked.{IsAnswer, RecipientValue, answer_value, recipient_value, recipients_value, identities_value, opening_value, output_value, command_value};
ghost use Rattle.sazh_command.specs.Found.{given_value};
ghost use Rattle.sazh_command.specs.Decimal.{number_of};
ghost use Rattle.sazh_command.specs.Synopsis.{name_of, output_of, recipients_of, some_recipients, identities_of, identities_if_given, no_operand, no_input, input_of, number_or_error, limit_of, opening_of, numbered, operands_range, range_of, says_to_whom, asked, asked_alone, unknown_or_asked};

use crate::command::{Command, Identities, Opening, Output, Recipient, Recipients};
use crate::found::Given;
use crate::mistakes::{Stop, UsageError};
use crate::names::{CommandName, Operand};
use crate::number::parse_number;
use std::alloc::{AllocError, Global};
use std::mem;

// How many bytes a header may have where no option says it: 16 MiB.
const HEADER_LIMIT: u64 = 16_777_216;

// The file of this name, or the standard input.
fn name_of(alloc: Global, name: Option<String>) -> Result<String, AllocError>
    ensures { IfOk result (λ text. string_bytes text ≡ name_of (option_map string_bytes name)) }
{
    match name {
        Some(name) => Ok(name),
        None => String::from_str(alloc, "-"),
    }
}

// Where the output goes, and how.
fn output_of(name: Option<String>, overwrite: bool, skip_sync: bool) -> Output
    ensures { output_value result ≡ output_of (option_map string_bytes name) overwrite skip_sync }
{
    Output {
        name,
        overwrite,
        skip_sync,
    }
}

// Recipients, or who knows a passphrase.
fn recipients_of(
    listed: Vec<Recipient>,
    passphrase_file: Option<String>,
) -> Result<Recipients, UsageError>
    ensures { answer_value recipients_value result ≡ recipients_of (map recipient_value listed.items) (option_map string_bytes passphrase_file) }
{
    if listed.is_empty() {
        match passphrase_file {
            Some(name) => Ok(Recipients::PassphraseFile(name)),
            None => Err(UsageError::NoRecipient),
        }
    } else {
        match passphrase_file {
            Some(_name) => Err(UsageError::PassphraseBesideRecipients),
            None => Ok(Recipients::Listed(listed)),
        }
    }
}

// The recipients of the identities in the files of these names, behind those that are there.
fn push_identity_files(
    alloc: Global,
    all: &mut Vec<Recipient>,
    names: &[String],
) -> Result<(), AllocError>
    ensures { OnOk result (map recipient_value all.new.items
        ≡ map recipient_value all.old.items ++ map RecipientValue.IdentityFile (map string_bytes names.now)) }
{
    for name in names {
        all.push(Recipient::IdentityFile(String::from_str(alloc, name)?))?;
    }
    Ok(())
}

// Recipients, of whom there is one.
fn some_recipients(listed: Vec<Recipient>) -> Result<Vec<Recipient>, UsageError>
    ensures { answer_value (λ all. map recipient_value all.items) result ≡ some_recipients (map recipient_value listed.items) }
{
    if listed.is_empty() {
        return Err(UsageError::NoRecipient);
    }
    Ok(listed)
}

// Identities, or who knows a passphrase.
fn identities_of(
    files: Vec<String>,
    passphrase_file: Option<String>,
) -> Result<Identities, UsageError>
    ensures { answer_value identities_value result ≡ identities_of (map string_bytes files.items) (option_map string_bytes passphrase_file) }
{
    if files.is_empty() {
        match passphrase_file {
            Some(name) => Ok(Identities::PassphraseFile(name)),
            None => Err(UsageError::NoIdentity),
        }
    } else {
        match passphrase_file {
            Some(name) => Ok(Identities::ProtectedFiles(files, name)),
            None => Ok(Identities::Files(files)),
        }
    }
}

// Identities, where there are any.
fn identities_if_given(files: Vec<String>, passphrase_file: Option<String>) -> Option<Identities>
    ensures { option_map identities_value result ≡ identities_if_given (map string_bytes files.items) (option_map string_bytes passphrase_file) }
{
    if files.is_empty() {
        match passphrase_file {
            Some(name) => Some(Identities::PassphraseFile(name)),
            None => None,
        }
    } else {
        match passphrase_file {
            Some(name) => Some(Identities::ProtectedFiles(files, name)),
            None => Some(Identities::Files(files)),
        }
    }
}

// That there is no operand.
fn no_operand(alloc: Global, operands: &[String]) -> Result<(), Stop>
    ensures { IsAnswer (λ none. none) result (no_operand (map string_bytes operands.now)) }
{
    match operands.first() {
        Some(word) => {
            let word = String::from_str(alloc, word.as_str())?;
            Err(Stop::Usage(UsageError::ExtraOperand(word)))
        }
        None => Ok(()),
    }
}

// The input that the operands name, or the standard input.
#[tactic(auto, using(crate::proofs::Stops::and_then_stops))]
fn input_of(alloc: Global, operands: &[String]) -> Result<String, Stop>
    ensures { IsAnswer string_bytes result (input_of (map string_bytes operands.now)) }
{
    let Some((input, more)) = operands.split_first() else {
        return Ok(String::from_str(alloc, "-")?);
    };
    no_operand(alloc, more)?;
    Ok(String::from_str(alloc, input.as_str())?)
}

// The number that an operand is, or that it is none.
fn number_or_error(alloc: Global, operand: Operand, word: &str) -> Result<u64, Stop>
    ensures { IsAnswer (λ number. number) result (number_or_error operand word.now (number_of word.now)) }
{
    match parse_number(word) {
        Some(number) => Ok(number),
        None => {
            let word = String::from_str(alloc, word)?;
            Err(Stop::Usage(UsageError::NotANumber(operand, word)))
        }
    }
}

// How many bytes a header may have.
fn limit_of(alloc: Global, word: Option<String>) -> Result<u64, Stop>
    ensures { IsAnswer (λ number. number) result (limit_of (option_map string_bytes word)) }
{
    match word {
        Some(word) => number_or_error(alloc, Operand::HeaderLimit, word.as_str()),
        None => Ok(HEADER_LIMIT),
    }
}

// How a file is opened, of what is taken out of `given`. The rest of it stays.
#[tactic(auto, using(crate::proofs::Stops::and_then_stops))]
fn opening_of(alloc: Global, given: &mut Given) -> Result<Opening, Stop>
    ensures opening { IsAnswer opening_value result (opening_of (map string_bytes given.old.identity_files.items)
        (option_map string_bytes given.old.passphrase_file) (option_map string_bytes given.old.header_limit)) }
    ensures rest { given.new ≡ record given.old { identity_files = given.new.identity_files; passphrase_file = None; header_limit = None } }
{
    let files = mem::replace(&mut given.identity_files, Vec::new(alloc));
    let (passphrase_file, limit) = (given.passphrase_file.take(), given.header_limit.take());
    let identities = identities_of(files, passphrase_file)?;
    let header_limit = limit_of(alloc, limit)?;
    Ok(Opening {
        identities,
        header_limit,
    })
}

// Both numbers, and the input.
#[tactic(auto, using(crate::proofs::Stops::and_then_stops))]
fn numbered(
    alloc: Global,
    place: &str,
    count: &str,
    input: String,
) -> Result<(u64, u64, String), Stop>
    ensures { IsAnswer (λ range. (range.0, range.1, string_bytes range.2)) result (numbered place.now count.now (string_bytes input)) }
{
    let place = number_or_error(alloc, Operand::Place, place)?;
    let count = number_or_error(alloc, Operand::Count, count)?;
    Ok((place, count, input))
}

// PLACE, COUNT and IN.
#[tactic(auto, using(crate::proofs::Stops::and_then_stops))]
fn operands_range(alloc: Global, operands: &[String]) -> Result<(u64, u64, String), Stop>
    ensures { IsAnswer (λ range. (range.0, range.1, string_bytes range.2)) result (operands_range (map string_bytes operands.now)) }
{
    let Some((place, more)) = operands.split_first() else {
        return Err(Stop::Usage(UsageError::MissingOperand(Operand::Place)));
    };
    let Some((count, more)) = more.split_first() else {
        return Err(Stop::Usage(UsageError::MissingOperand(Operand::Count)));
    };
    let Some((input, more)) = more.split_first() else {
        return Err(Stop::Usage(UsageError::MissingOperand(Operand::Input)));
    };
    no_operand(alloc, more)?;
    let input = String::from_str(alloc, input.as_str())?;
    numbered(alloc, place.as_str(), count.as_str(), input)
}

// PLACE, COUNT and IN, by options or as operands.
#[tactic(auto, using(crate::proofs::Stops::and_then_stops))]
fn range_of(
    alloc: Global,
    place: Option<String>,
    count: Option<String>,
    operands: &[String],
) -> Result<(u64, u64, String), Stop>
    ensures { IsAnswer (λ range. (range.0, range.1, string_bytes range.2)) result
        (range_of (option_map string_bytes place) (option_map string_bytes count) (map string_bytes operands.now)) }
{
    match (place, count) {
        (None, None) => operands_range(alloc, operands),
        (Some(place), Some(count)) => {
            let input = input_of(alloc, operands)?;
            numbered(alloc, place.as_str(), count.as_str(), input)
        }
        _ => Err(Stop::Usage(UsageError::PlaceOrCountAlone)),
    }
}

// That nothing is read.
fn no_input(input: Option<String>) -> Result<(), UsageError>
    ensures { answer_value (λ none. none) result ≡ no_input (option_map string_bytes input) }
{
    match input {
        Some(word) => Err(UsageError::ExtraOperand(word)),
        None => Ok(()),
    }
}

// `keygen`.
#[tactic(auto, using(crate::proofs::Stops::and_then_stops))]
fn asked_of_keygen(alloc: Global, given: &mut Given) -> Result<Command, Stop>
    ensures { IsAnswer command_value result (asked CommandName.Keygen (given_value given.old)) }
{
    if given.publish {
        let input = name_of(alloc, given.input.take())?;
        let output = output_of(given.output.take(), given.overwrite, given.skip_sync);
        return Ok(Command::RecipientsOf { input, output });
    }
    no_input(given.input.take())?;
    let output = output_of(given.output.take(), given.overwrite, given.skip_sync);
    Ok(Command::Keygen {
        output,
        quiet: given.quiet,
    })
}

// `encrypt`.
#[tactic(auto, using(crate::proofs::Stops::and_then_stops))]
fn asked_of_encrypt(alloc: Global, given: &mut Given) -> Result<Command, Stop>
    ensures { IsAnswer command_value result (asked CommandName.Encrypt (given_value given.old)) }
{
    let mut listed = mem::replace(&mut given.recipients, Vec::new(alloc));
    push_identity_files(alloc, &mut listed, given.identity_files.as_slice())?;
    let recipients = recipients_of(listed, given.passphrase_file.take())?;
    let input = name_of(alloc, given.input.take())?;
    let output = output_of(given.output.take(), given.overwrite, given.skip_sync);
    Ok(Command::Encrypt {
        recipients,
        armored: given.armored,
        input,
        output,
        quiet: given.quiet,
    })
}

// `decrypt`.
#[tactic(auto, using(crate::proofs::Stops::and_then_stops))]
fn asked_of_decrypt(alloc: Global, given: &mut Given) -> Result<Command, Stop>
    ensures { IsAnswer command_value result (asked CommandName.Decrypt (given_value given.old)) }
{
    let opening = opening_of(alloc, given)?;
    let input = name_of(alloc, given.input.take())?;
    let output = output_of(given.output.take(), given.overwrite, given.skip_sync);
    Ok(Command::Decrypt {
        opening,
        input,
        output,
        quiet: given.quiet,
    })
}

// `part`.
#[tactic(auto, using(crate::proofs::Stops::and_then_stops))]
fn asked_of_part(alloc: Global, given: &mut Given) -> Result<Command, Stop>
    ensures { IsAnswer command_value result (asked CommandName.Part (given_value given.old)) }
{
    let opening = opening_of(alloc, given)?;
    let (place, count) = (given.place.take(), given.count.take());
    let (place, count, input) = range_of(alloc, place, count, given.operands.as_slice())?;
    Ok(Command::Part {
        opening,
        place,
        count,
        input,
        quiet: given.quiet,
    })
}

// `migrate`.
#[tactic(auto, using(crate::proofs::Stops::and_then_stops))]
fn asked_of_migrate(alloc: Global, given: &mut Given) -> Result<Command, Stop>
    ensures { IsAnswer command_value result (asked CommandName.Migrate (given_value given.old)) }
{
    let opening = opening_of(alloc, given)?;
    let input = name_of(alloc, given.input.take())?;
    let output = output_of(given.output.take(), given.overwrite, given.skip_sync);
    Ok(Command::Migrate {
        opening,
        input,
        output,
        quiet: given.quiet,
    })
}

// `rekey`.
#[tactic(auto, using(crate::proofs::Stops::and_then_stops))]
fn asked_of_rekey(alloc: Global, given: &mut Given) -> Result<Command, Stop>
    ensures { IsAnswer command_value result (asked CommandName.Rekey (given_value given.old)) }
{
    let opening = opening_of(alloc, given)?;
    let listed = mem::replace(&mut given.recipients, Vec::new(alloc));
    let recipients = some_recipients(listed)?;
    let input = name_of(alloc, given.input.take())?;
    let output = output_of(given.output.take(), given.overwrite, given.skip_sync);
    Ok(Command::Rekey {
        opening,
        recipients,
        armored: given.armored,
        input,
        output,
        quiet: given.quiet,
    })
}

// `verify`.
#[tactic(auto, using(crate::proofs::Stops::and_then_stops))]
fn asked_of_verify(alloc: Global, given: &mut Given) -> Result<Command, Stop>
    ensures { IsAnswer command_value result (asked CommandName.Verify (given_value given.old)) }
{
    let opening = opening_of(alloc, given)?;
    let input = name_of(alloc, given.input.take())?;
    Ok(Command::Verify {
        opening,
        input,
        quiet: given.quiet,
    })
}

// `inspect`.
#[tactic(auto, using(crate::proofs::Stops::and_then_stops))]
fn asked_of_inspect(alloc: Global, given: &mut Given) -> Result<Command, Stop>
    ensures { IsAnswer command_value result (asked CommandName.Inspect (given_value given.old)) }
{
    let files = mem::replace(&mut given.identity_files, Vec::new(alloc));
    let identities = identities_if_given(files, given.passphrase_file.take());
    let header_limit = limit_of(alloc, given.header_limit.take())?;
    let input = name_of(alloc, given.input.take())?;
    Ok(Command::Inspect {
        identities,
        header_limit,
        json: given.json,
        input,
    })
}

/// What a command asks for, where its options and operands are these. It takes what it needs out of `given`, so that all else of it is
/// dropped in one place, by who has it.
pub fn asked(alloc: Global, command: CommandName, given: &mut Given) -> Result<Command, Stop>
    ensures { IsAnswer command_value result (asked command (given_value given.old)) }
{
    match command {
        CommandName::Keygen => asked_of_keygen(alloc, given),
        CommandName::Encrypt => asked_of_encrypt(alloc, given),
        CommandName::Decrypt => asked_of_decrypt(alloc, given),
        CommandName::Part => asked_of_part(alloc, given),
        CommandName::Migrate => asked_of_migrate(alloc, given),
        CommandName::Rekey => asked_of_rekey(alloc, given),
        CommandName::Verify => asked_of_verify(alloc, given),
        CommandName::Inspect => asked_of_inspect(alloc, given),
    }
}

// Whether something says to whom is encrypted.
fn says_to_whom(given: &Given) -> bool
    ensures { result ≡ says_to_whom (given_value given.now) }
{
    !given.recipients.is_empty() || given.passphrase_file.is_some()
}

// To encrypt, unless nothing but a word is given.
fn unknown_or_asked(alloc: Global, given: &mut Given) -> Result<Command, Stop>
    ensures { IsAnswer command_value result (unknown_or_asked (option_map string_bytes given.old.input) (given_value given.old)) }
{
    if says_to_whom(given) {
        return asked_of_encrypt(alloc, given);
    }
    match given.input.take() {
        Some(word) => Err(Stop::Usage(UsageError::UnknownCommand(word))),
        None => asked_of_encrypt(alloc, given),
    }
}

/// What options and an operand ask for where there is no command, with `-e` and `-d` or without.
pub fn asked_alone(
    alloc: Global,
    encrypting: bool,
    decrypting: bool,
    given: &mut Given,
) -> Result<Command, Stop>
    ensures { IsAnswer command_value result (asked_alone encrypting decrypting (given_value given.old)) }
{
    if decrypting {
        if encrypting {
            return Err(Stop::Usage(UsageError::EncryptAndDecrypt));
        }
        if given.armored || !given.recipients.is_empty() {
            return Err(Stop::Usage(UsageError::EncryptingOption));
        }
        return asked_of_decrypt(alloc, given);
    }
    if given.header_limit.is_some() {
        return Err(Stop::Usage(UsageError::LimitWithoutDecrypting));
    }
    if encrypting {
        return asked_of_encrypt(alloc, given);
    }
    if !given.identity_files.is_empty() {
        return Err(Stop::Usage(UsageError::DecryptingOption));
    }
    unknown_or_asked(alloc, given)
}
