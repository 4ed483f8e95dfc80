//! The definition of X25519 computed, at the test vectors of RFC 7748. No code runs here: the checker of the proofs computes.
#![tactic(auto)]

ghost use Rattle.std.specs.Prelude.{◌≡◌};
ghost use Rattle.curve25519.specs.X25519.{public_key, x25519};
ghost use Rattle.curve25519_tests.specs.Vectors.{
  first_scalar,
  first_u_coordinate,
  first_output,
  second_scalar,
  second_u_coordinate,
  second_output,
  secret_of_alice,
  public_of_alice,
  secret_of_bob,
  public_of_bob,
  shared_secret,
};

/// The two test vectors of 5.2, and the example of 6.1: for proofs alone.
pub fn test_vectors()
    ensures first { x25519 first_scalar first_u_coordinate ≡ first_output }
    ensures second { x25519 second_scalar second_u_coordinate ≡ second_output }
    ensures alice { public_key secret_of_alice ≡ public_of_alice }
    ensures bob { public_key secret_of_bob ≡ public_of_bob }
    ensures both { x25519 secret_of_alice public_of_bob ≡ shared_secret }
{}
