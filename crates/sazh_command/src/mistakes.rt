//! What is wrong with a command line.
ghost use Rattle.std.specs.Prelude.{◌≡◌};
ghost use Rattle.sazh_command.specs.Asked.{error_value};
ghost use Rattle.sazh_command.specs.Messages.{message_of};

use crate::names::Operand;
use std::alloc::AllocError;
use std::error::Error;
use std::fmt;

/// Why the words are no command line of the program. `Display` says it: a word that the program itself names is written as a literal of
/// Rust is, in quotes, with its line ends escaped.
#[derive(Debug, Drop)]
pub enum UsageError {
    /// There is no word.
    NoCommand,
    /// The words are not those of a command line, for the reason that this text of `clap` gives. It ends with the usage.
    Words(String),
    /// `-p` lacks the name of a file.
    NoPassphraseFile,
    /// One of the words holds a secret key, so that none is repeated: other words are wrong, or this one stands in the place of a file.
    HoldsSecret,
    /// The one word that no option takes names no command, and nothing says to whom is encrypted.
    UnknownCommand(String),
    /// An option or an operand stands before the command to which it may belong.
    WordBeforeCommand,
    /// `-e` stands beside `-d`.
    EncryptAndDecrypt,
    /// `-r`, `-R` or `-a` stands beside `-d`.
    EncryptingOption,
    /// `-i` is given, and neither `-d` nor `-e` is.
    DecryptingOption,
    /// `--header-limit` is given, and `-d` is not.
    LimitWithoutDecrypting,
    /// Where is encrypted, `-p` stands beside `-r`, `-R` or `-i`.
    PassphraseBesideRecipients,
    /// Where is encrypted, none of `-r`, `-R` and `-p` is given.
    NoRecipient,
    /// Where is decrypted, neither `-i` nor `-p` is given.
    NoIdentity,
    /// `part` has one of `--from` and `--count`.
    PlaceOrCountAlone,
    /// `part` lacks this operand.
    MissingOperand(Operand),
    /// The word in the place of PLACE, COUNT or the value of `--header-limit` is no decimal number below 2^64.
    NotANumber(Operand, String),
    /// This operand is one more than `part` takes, or than `keygen` takes without `-y`.
    ExtraOperand(String),
}

const NO_PASSPHRASE_FILE: &str =
    "the option -p lacks its value: it is the name of a file, whose first line is the passphrase.
Nothing is asked on a terminal. To type it, or to take it from a password manager, in bash:
  read -rsp 'passphrase: ' word
  sazh -p <(printf '%s\\n' \"$word\") -o notes.age notes.txt
  sazh -d -p <(pass show notes) notes.age";

impl fmt::Display for UsageError {
    ghost output = { λ error. message_of (error_value error) };

    fn fmt<W: fmt::Write>(&self, f: &mut fmt::Formatter<W>) -> fmt::Result {
        match self {
            UsageError::NoCommand => f.write_str("no command is given"),
            UsageError::Words(text) => f.write_str(text.as_str()),
            UsageError::NoPassphraseFile => f.write_str(NO_PASSPHRASE_FILE),
            UsageError::HoldsSecret => f.write_str(
                "a word holds a secret key, and no word is repeated: name the key's file, by -i FILE",
            ),
            UsageError::UnknownCommand(word) => {
                write!(
                    f,
                    "{word:?} is no command, and to encrypt it -r, -R or -p is needed"
                )
            }
            UsageError::WordBeforeCommand => {
                f.write_str("the name of a command isn't the first word")
            }
            UsageError::EncryptAndDecrypt => f.write_str("the option -e is given beside -d"),
            UsageError::EncryptingOption => {
                f.write_str("the option -d is given beside -r, -R or -a, which are to encrypt")
            }
            UsageError::DecryptingOption => {
                f.write_str(
                    "the option -i needs -d, to decrypt, or -e, to encrypt to the recipients of its identities",
                )
            }
            UsageError::LimitWithoutDecrypting => {
                f.write_str("the option --header-limit is given without -d, which is to decrypt")
            }
            UsageError::PassphraseBesideRecipients => {
                f.write_str("the option -p is given beside -r, -R or -i")
            }
            UsageError::NoRecipient => f.write_str("no recipient is given: -r, -R or -p is needed"),
            UsageError::NoIdentity => f.write_str("no identity is given: -i or -p is needed"),
            UsageError::PlaceOrCountAlone => {
                f.write_str("one of the options --from and --count is given without the other")
            }
            UsageError::MissingOperand(operand) => write!(f, "{operand} is missing"),
            UsageError::NotANumber(operand, word) => {
                write!(f, "{operand} is {word:?}, and no decimal number below 2^64")
            }
            UsageError::ExtraOperand(word) => write!(f, "the word {word:?} is one too many"),
        }
    }
}

impl Error for UsageError {}

/// Why a step of the reading ends it: a mistake in the words, or memory that was refused. So `?` serves for both.
#[derive(Drop)]
pub enum Stop {
    /// The words are no command line.
    Usage(UsageError),
    /// There is no memory.
    Memory,
}

impl From<UsageError> for Stop {
    ghost use Rattle.sazh_command.specs.declared.mistakes.Stop.{Stop};

    ghost from_gives = { λ error stop. stop ≡ Stop.Usage error };

    fn from(error: UsageError) -> Stop {
        Stop::Usage(error)
    }
}

impl From<AllocError> for Stop {
    ghost use Rattle.sazh_command.specs.declared.mistakes.Stop.{Stop};

    ghost from_gives = { λ _ stop. stop ≡ Stop.Memory };

    fn from(_: AllocError) -> Stop {
        Stop::Memory
    }
}
