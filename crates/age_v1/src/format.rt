//! The two forms of a file.

/// The form in which a file is written.
#[derive(Drop)]
pub enum Format {
    /// The bytes themselves.
    Binary,

    /// ASCII armor: base64 in lines of 64 columns between two markers (age-encryption.org/v1, section "ASCII armor").
    AsciiArmor,
}
