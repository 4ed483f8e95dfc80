//! Recipients that the words of a command line name.
ghost use Rattle.std.specs.Prelude.{MatchResult};
ghost use Rattle.sazh_core.specs.Words.{AreOfText, AreOfWord, AreOfWords, RefusesRecipientWord, RefusesWord, RefusesWords};

use crate::error::{IdentitiesError, RecipientsError, WordsError};
use crate::lists::joined;
use crate::own_recipients::recipients_of_identities;
use crate::recipients::recipients_of;
use age::armor::ArmoredReader;
use age::io::{BufReader, Bytes, Read};
use age::suite::Suite;
use age::x25519::Recipient;
use std::alloc::Global;
use std::str::FromStr;

/// A word of a command line that names recipients.
#[derive(Drop)]
pub enum Word {
    /// The text of a recipient.
    Text(String),
    /// A file of recipients, which has these bytes.
    File(Vec<u8>),
    /// A file of identities, which has these bytes. It names their recipients.
    Identities(Vec<u8>),
}

// The recipient of a text, which stands in the word of this number.
fn keys_of_text<S>(
    alloc: Global,
    text: &str,
    number: usize,
) -> Result<Vec<Recipient<S>>, WordsError>
    ensures { MatchResult result (λ keys. AreOfText text.now keys.items) (λ e. RefusesRecipientWord number text.now e) }
{
    match Recipient::from_str(text) {
        Err(why) => Err(WordsError::NotRecipient { word: number, why }),
        Ok(key) => {
            let mut keys = Vec::new(alloc);
            match keys.push(key) {
                Err(_) => Err(WordsError::OutOfMemory),
                Ok(()) => Ok(keys),
            }
        }
    }
}

// The recipients of a word of this number.
fn keys_of_word<'a, S: Suite>(
    alloc: Global,
    word: &'a Word,
    number: usize,
) -> Result<Vec<Recipient<S>>, WordsError>
    ensures { MatchResult result (λ keys. AreOfWord S.public_of word.now keys.items)
        (λ e. RefusesWord ⟦<ArmoredReader<BufReader<Bytes<'a>>> as Read>⟧ S number word.now e) }
{
    match word {
        Word::Text(text) => keys_of_text(alloc, text.as_str(), number),
        Word::File(bytes) => match recipients_of(alloc, bytes) {
            Ok(keys) => Ok(keys),
            Err(why) => Err(WordsError::File { word: number, why }),
        },
        Word::Identities(bytes) => match recipients_of_identities::<S>(alloc, bytes) {
            Ok(keys) => Ok(keys),
            Err(why) => Err(WordsError::Identities { word: number, why }),
        },
    }
}

/// The recipients that words name, each word's after those of the words before it: of a text its recipient, of a file of recipients those of
/// its lines, and of a file of identities those of its identities, in their order. There is no other.
///
/// # Errors
///
/// Those of the first word that is refused, whose number is counted from 0:
///
/// - `NotRecipient`: it is the text of no recipient, and why.
/// - `File`: its bytes aren't those of a file of recipients, and why.
/// - `Identities`: its bytes aren't those of a file of identities, or its recipients can't be told, as `recipients_of_identities` says.
///
/// `OutOfMemory`: memory was refused.
pub fn keys_of_words<'a, S: Suite>(
    alloc: Global,
    words: &'a [Word],
) -> Result<Vec<Recipient<S>>, WordsError>
    ensures { MatchResult result (λ keys. AreOfWords S.public_of words.now keys.items)
        (λ e. RefusesWords ⟦<ArmoredReader<BufReader<Bytes<'a>>> as Read>⟧ S S.public_of words.now e) }
{
    let mut keys: Vec<Recipient<S>> = Vec::new(alloc);
    for i in 0..words.len() {
        match keys_of_word(alloc, &words[i], i) {
            Err(error) => return Err(error),
            Ok(more) => match joined(keys, more) {
                Err(_) => return Err(WordsError::OutOfMemory),
                Ok(all) => keys = all,
            },
        }
    }
    Ok(keys)
}
