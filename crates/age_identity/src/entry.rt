//! What a line of an identity file stands for.

use age_keys::{plugin, x25519};

/// A native identity, or one of a plugin.
#[derive(Drop)]
pub(crate) enum IdentityFileEntry<S> {
    Native(x25519::Identity<S>),
    Plugin(plugin::Identity),
}
