//! Words that hold a secret key.
ghost use Rattle.std.specs.Prelude.{◌↔◌, IsTrue, map, option_map, string_bytes};
ghost use Rattle.sazh_command.specs.Asked.{recipient_value, recipients_value, identities_value, opening_value, output_value, command_value};
ghost use Rattle.sazh_command.specs.Secrets.{HoldsSecret, AnyHoldsSecret, FileHoldsSecret, AnyFileHoldsSecret, RecipientsNameSecret, IdentitiesNameSecret, GivenIdentitiesNameSecret, OutputNamesSecret, FilesNameSecret, OpeningNamesSecret, NamesSecret};

use crate::command::{Command, Identities, Opening, Output, Recipient, Recipients};

// Whether the beginning of a secret key stands in a word, in one of the two cases in which it may be written.
fn holds_secret(word: &str) -> bool
    ensures { IsTrue result ↔ HoldsSecret word.now }
{
    let upper = word.contains("AGE-SECRET-KEY-");
    let lower = word.contains("age-secret-key-");
    upper | lower
}

/// Whether the beginning of a secret key stands in one of the words.
pub fn any_holds_secret(words: &[String]) -> bool
    ensures { IsTrue result ↔ AnyHoldsSecret (map string_bytes words.now) }
{
    let mut rest = words;
    'all: while let Some((word, tail)) = rest.split_first() {
        if holds_secret(word.as_str()) {
            return true;
        }
        rest = tail;
    }
    false
}

// Whether it stands in the name of a file of recipients.
fn file_holds_secret(one: &Recipient) -> bool
    ensures { IsTrue result ↔ FileHoldsSecret (recipient_value one.now) }
{
    match one {
        Recipient::Text(_) => false,
        Recipient::File(name) | Recipient::IdentityFile(name) => holds_secret(name.as_str()),
    }
}

// Whether it stands in the name of one of the files of recipients or identities.
fn any_file_holds_secret(all: &[Recipient]) -> bool
    ensures { IsTrue result ↔ AnyFileHoldsSecret (map recipient_value all.now) }
{
    let mut rest = all;
    'all: while let Some((one, tail)) = rest.split_first() {
        if file_holds_secret(one) {
            return true;
        }
        rest = tail;
    }
    false
}

// Whether it stands in the name of a file that says to whom is encrypted.
fn recipients_name_secret(recipients: &Recipients) -> bool
    ensures { IsTrue result ↔ RecipientsNameSecret (recipients_value recipients.now) }
{
    match recipients {
        Recipients::Listed(all) => any_file_holds_secret(all.as_slice()),
        Recipients::PassphraseFile(name) => holds_secret(name.as_str()),
    }
}

// Whether it stands in the name of a file that says who decrypts.
#[tactic(auto, using(crate::proofs::Either::either))]
fn identities_name_secret(identities: &Identities) -> bool
    ensures { IsTrue result ↔ IdentitiesNameSecret (identities_value identities.now) }
{
    match identities {
        Identities::Files(names) => any_holds_secret(names.as_slice()),
        Identities::ProtectedFiles(names, name) => {
            let in_files = any_holds_secret(names.as_slice());
            let in_name = holds_secret(name.as_str());
            in_files | in_name
        }
        Identities::PassphraseFile(name) => holds_secret(name.as_str()),
    }
}

// Whether it stands in the name of a file that says who is asked for the key of a file, where one does.
fn named_identities_name_secret(identities: &Option<Identities>) -> bool
    ensures { IsTrue result ↔ GivenIdentitiesNameSecret (option_map identities_value identities.now) }
{
    match identities {
        None => false,
        Some(identities) => identities_name_secret(identities),
    }
}

// Whether it stands in the name of the output.
fn output_names_secret(output: &Output) -> bool
    ensures { IsTrue result ↔ OutputNamesSecret (output_value output.now) }
{
    match &output.name {
        None => false,
        Some(name) => holds_secret(name.as_str()),
    }
}

// Whether it stands in the name of the input or the output.
#[tactic(auto, using(crate::proofs::Either::either))]
fn files_name_secret(input: &str, output: &Output) -> bool
    ensures { IsTrue result ↔ FilesNameSecret input.now (output_value output.now) }
{
    let in_input = holds_secret(input);
    let in_output = output_names_secret(output);
    in_input | in_output
}

// The same of all files of a command that reads a file of age and writes one.
#[tactic(auto, using(crate::proofs::Either::either))]
fn opening_names_secret(opening: &Opening, input: &str, output: &Output) -> bool
    ensures { IsTrue result ↔ OpeningNamesSecret (opening_value opening.now) input.now (output_value output.now) }
{
    let in_keys = identities_name_secret(&opening.identities);
    let in_files = files_name_secret(input, output);
    in_keys | in_files
}

/// Whether it stands in the name of a file that a command reads or writes. A recipient is no such name.
#[tactic(auto, using(crate::proofs::Either::either))]
pub fn names_secret(command: &Command) -> bool
    ensures { IsTrue result ↔ NamesSecret (command_value command.now) }
{
    match command {
        Command::Help(_) | Command::Version(_) => false,
        Command::Keygen { output, .. } => output_names_secret(output),
        Command::RecipientsOf { input, output } => files_name_secret(input.as_str(), output),
        Command::Encrypt {
            recipients,
            input,
            output,
            ..
        } => {
            let in_keys = recipients_name_secret(recipients);
            let in_files = files_name_secret(input.as_str(), output);
            in_keys | in_files
        }
        Command::Part { opening, input, .. } => {
            let in_keys = identities_name_secret(&opening.identities);
            let in_input = holds_secret(input.as_str());
            in_keys | in_input
        }
        Command::Rekey {
            opening,
            recipients,
            input,
            output,
            ..
        } => {
            let in_recipients = any_file_holds_secret(recipients.as_slice());
            let in_others = opening_names_secret(opening, input.as_str(), output);
            in_recipients | in_others
        }
        Command::Verify { opening, input, .. } => {
            let in_keys = identities_name_secret(&opening.identities);
            let in_input = holds_secret(input.as_str());
            in_keys | in_input
        }
        Command::Decrypt {
            opening,
            input,
            output,
            ..
        } => opening_names_secret(opening, input.as_str(), output),
        Command::Migrate {
            opening,
            input,
            output,
            ..
        } => opening_names_secret(opening, input.as_str(), output),
        Command::Inspect {
            identities,
            input,
            ..
        } => {
            let in_keys = named_identities_name_secret(identities);
            let in_input = holds_secret(input.as_str());
            in_keys | in_input
        }
    }
}
