//! What `clap` found among the words, as lists and texts of the program's own.
ghost use Rattle.std.specs.Prelude.{◌≡◌, ◌++◌, IfOk, OnOk, map, string_bytes, option_map, codes};
ghost use Rattle.clap.specs.Words.{found_of, rows_of, first_of};
ghost use Rattle.sazh_command.specs.Asked.{RecipientValue, recipient_value};
ghost use Rattle.sazh_command.specs.Found.{values_in, recipients_in, is_true, given_value, given_of};

use crate::command::Recipient;
use clap::ArgMatches;
use std::alloc::{AllocError, Global};

/// What the options and operands of a command line give.
#[derive(Drop)]
pub struct Given {
    pub recipients: Vec<Recipient>,
    pub identity_files: Vec<String>,
    pub passphrase_file: Option<String>,
    pub armored: bool,
    pub overwrite: bool,
    pub skip_sync: bool,
    pub quiet: bool,
    pub publish: bool,
    pub json: bool,
    pub header_limit: Option<String>,
    pub output: Option<String>,
    pub input: Option<String>,
    pub place: Option<String>,
    pub count: Option<String>,
    pub operands: Vec<String>,
}

// The value of an option, or the first of its values.
fn text_of(alloc: Global, matches: &ArgMatches<'_>, id: &str) -> Result<Option<String>, AllocError>
    ensures { IfOk result (λ text. option_map string_bytes text ≡ first_of id.now (rows_of (found_of matches.now))) }
{
    match matches.get_str(id) {
        Some(text) => Ok(Some(String::from_str(alloc, text)?)),
        None => Ok(None),
    }
}

// Texts, each in memory of its own.
fn owned(alloc: Global, texts: &[&str]) -> Result<Vec<String>, AllocError>
    ensures { IfOk result (λ all. map string_bytes all.items ≡ map (λ text. text.now) texts.now) }
{
    let mut all = Vec::new(alloc);
    for text in texts {
        all.push(String::from_str(alloc, text)?)?;
    }
    Ok(all)
}

// The values of an option, in the order of the words.
fn texts_of(alloc: Global, matches: &ArgMatches<'_>, id: &str) -> Result<Vec<String>, AllocError>
    ensures { IfOk result (λ all. map string_bytes all.items ≡ values_in id.now (rows_of (found_of matches.now))) }
{
    match matches.get_raw(id) {
        Some(texts) => owned(alloc, texts),
        None => Ok(Vec::new(alloc)),
    }
}

// Each text as a recipient, behind those that are there.
fn push_texts(alloc: Global, all: &mut Vec<Recipient>, texts: &[&str]) -> Result<(), AllocError>
    ensures { OnOk result (map recipient_value all.new.items
        ≡ map recipient_value all.old.items ++ map RecipientValue.Text (map (λ text. text.now) texts.now)) }
{
    for text in texts {
        all.push(Recipient::Text(String::from_str(alloc, text)?))?;
    }
    Ok(())
}

// Each text as the name of a file of recipients, behind those that are there.
fn push_files(alloc: Global, all: &mut Vec<Recipient>, names: &[&str]) -> Result<(), AllocError>
    ensures { OnOk result (map recipient_value all.new.items
        ≡ map recipient_value all.old.items ++ map RecipientValue.File (map (λ name. name.now) names.now)) }
{
    for name in names {
        all.push(Recipient::File(String::from_str(alloc, name)?))?;
    }
    Ok(())
}

// The recipients of `-r`, behind those that are there.
fn push_recipients(
    alloc: Global,
    all: &mut Vec<Recipient>,
    matches: &ArgMatches<'_>,
) -> Result<(), AllocError>
    ensures { OnOk result (map recipient_value all.new.items
        ≡ map recipient_value all.old.items ++ map RecipientValue.Text (values_in (codes "recipient") (rows_of (found_of matches.now)))) }
{
    match matches.get_raw("recipient") {
        Some(texts) => push_texts(alloc, all, texts),
        None => Ok(()),
    }
}

// The files of `-R`, behind those that are there.
fn push_recipients_files(
    alloc: Global,
    all: &mut Vec<Recipient>,
    matches: &ArgMatches<'_>,
) -> Result<(), AllocError>
    ensures { OnOk result (map recipient_value all.new.items
        ≡ map recipient_value all.old.items ++ map RecipientValue.File (values_in (codes "recipients-file") (rows_of (found_of matches.now)))) }
{
    match matches.get_raw("recipients-file") {
        Some(names) => push_files(alloc, all, names),
        None => Ok(()),
    }
}

// The recipients of `-r`, and then those of `-R`.
fn recipients_of(alloc: Global, matches: &ArgMatches<'_>) -> Result<Vec<Recipient>, AllocError>
    ensures { IfOk result (λ all. map recipient_value all.items ≡ recipients_in (rows_of (found_of matches.now))) }
{
    let mut all = Vec::new(alloc);
    push_recipients(alloc, &mut all, matches)?;
    push_recipients_files(alloc, &mut all, matches)?;
    Ok(all)
}

/// Whether an option without a value is given.
pub fn is_given(matches: &ArgMatches<'_>, id: &str) -> bool
    ensures { result ≡ is_true (first_of id.now (rows_of (found_of matches.now))) }
{
    match matches.get_str(id) {
        Some(text) => text == "true",
        None => false,
    }
}

/// What the matches of a command give.
pub fn given_of(alloc: Global, matches: &ArgMatches<'_>) -> Result<Given, AllocError>
    ensures { IfOk result (λ given. given_value given ≡ given_of (rows_of (found_of matches.now))) }
{
    Ok(Given {
        recipients: recipients_of(alloc, matches)?,
        identity_files: texts_of(alloc, matches, "identity")?,
        passphrase_file: text_of(alloc, matches, "passphrase-file")?,
        armored: is_given(matches, "armor"),
        overwrite: is_given(matches, "force"),
        skip_sync: is_given(matches, "no-sync"),
        quiet: is_given(matches, "quiet"),
        publish: is_given(matches, "recipients"),
        json: is_given(matches, "json"),
        header_limit: text_of(alloc, matches, "header-limit")?,
        output: text_of(alloc, matches, "output")?,
        input: text_of(alloc, matches, "input")?,
        place: text_of(alloc, matches, "from")?,
        count: text_of(alloc, matches, "count")?,
        operands: texts_of(alloc, matches, "operands")?,
    })
}
