//! What is known of bytes.

ghost use Rattle.age_error.specs.Bytes.{AreBytes, AreBytesOf};

/// What a slice of bytes holds is numbers below 256: a fact for proofs alone, which costs nothing.
pub fn known_bytes(bytes: &[u8])
    ensures { AreBytes bytes.now }
{}

/// What an array of bytes holds is N numbers below 256: a fact for proofs alone, which costs nothing.
pub fn known_array<const N: usize>(bytes: &[u8; N])
    ensures { AreBytesOf N bytes.now }
{
    known_bytes(bytes);
}
