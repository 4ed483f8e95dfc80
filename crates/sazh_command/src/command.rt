//! What a command line asks for.

/// Whom `encrypt` encrypts to.
#[derive(Debug, Drop)]
pub enum Recipients {
    /// Each of these: those of `-r` in the order of the words, then the files of `-R` in theirs, and then those of `-i`. At least one.
    Listed(Vec<Recipient>),
    /// Who knows the passphrase in the file of this name (`-p`).
    PassphraseFile(String),
}

/// One recipient, a file of them, or a file of identities that have some.
#[derive(Debug, Drop)]
pub enum Recipient {
    /// The recipient of this text (`-r`).
    Text(String),
    /// Each recipient in the file of this name (`-R`).
    File(String),
    /// The recipient of each identity in the file of this name (`-i`, where is encrypted).
    IdentityFile(String),
}

/// Who decrypts.
#[derive(Debug, Drop)]
pub enum Identities {
    /// Each identity in the files of these names (`-i`), in the order of the words. At least one.
    Files(Vec<String>),
    /// The same, where the files that are encrypted have the passphrase in the file of the other name (`-p`).
    ProtectedFiles(Vec<String>, String),
    /// Who knows the passphrase in the file of this name (`-p`).
    PassphraseFile(String),
}

/// How a file of age is opened.
#[derive(Debug, Drop)]
pub struct Opening {
    /// Who decrypts.
    pub identities: Identities,
    /// How many bytes its header may have (`--header-limit`), or 16,777,216 where that isn't given.
    pub header_limit: u64,
}

/// Where the output goes.
#[derive(Debug, Drop)]
pub struct Output {
    /// The name of the file, or `-` for the standard output (`-o`). `None` where none is given: the standard output too.
    pub name: Option<String>,
    /// Whether a file that is there may be replaced (`-f`).
    pub overwrite: bool,
    /// Whether a new file gets its name before its bytes are on the disk (`--no-sync`).
    pub skip_sync: bool,
}

/// What the program is to do. `input` is the name of a file, or `-` for the standard input; `quiet` is whether nothing but refusals and
/// warnings goes to standard error (`-q`).
#[derive(Debug, Drop)]
pub enum Command {
    /// Write this text, which is the help of the program or of a command.
    Help(String),
    /// Write this text, which has the version.
    Version(String),
    /// Write a new identity.
    Keygen {
        output: Output,
        quiet: bool,
    },
    /// Write the recipients of the identities in the input, a line each. Where no input is named it is `-`.
    RecipientsOf {
        input: String,
        output: Output,
    },
    /// Write the input encrypted to the recipients, in armor or not. Where no input is named it is `-`.
    Encrypt {
        recipients: Recipients,
        armored: bool,
        input: String,
        output: Output,
        quiet: bool,
    },
    /// Write the input decrypted. Where no input is named it is `-`.
    Decrypt {
        opening: Opening,
        input: String,
        output: Output,
        quiet: bool,
    },
    /// Write `count` bytes of the decrypted input from byte `place` on, or fewer at its end.
    Part {
        opening: Opening,
        place: u64,
        count: u64,
        input: String,
        quiet: bool,
    },
    /// Write the input, a file whose header may be of the early form, with a header of the standard. Where no input is named it is `-`.
    Migrate {
        opening: Opening,
        input: String,
        output: Output,
        quiet: bool,
    },
    /// Write the decrypted input encrypted to these recipients, of whom there is at least one, in armor or not. Where no input is named it
    /// is `-`.
    Rekey {
        opening: Opening,
        recipients: Vec<Recipient>,
        armored: bool,
        input: String,
        output: Output,
        quiet: bool,
    },
    /// Read the decrypted input, and write its length and its digest. Where no input is named it is `-`.
    Verify {
        opening: Opening,
        input: String,
        quiet: bool,
    },
    /// Tell what the input is, as a file of age, and whether one of the identities has its key where some are given; as JSON or as lines of
    /// text. Its header may have this many bytes, as for `Opening`. Where no input is named it is `-`.
    Inspect {
        identities: Option<Identities>,
        header_limit: u64,
        json: bool,
        input: String,
    },
}
