// The path at which the calls of a sending were found before they moved beside its type: who imports it still finds them.
pub use crate::sending::Sending;
