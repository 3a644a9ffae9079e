//! The cases of a script's switch.
use crate::call::Name;

/// A case of a switch: the block to which control goes where the value is this key.
#[derive(Clone, Copy, Debug, PartialEq, Eq)]
pub struct SwitchEntry {
    /// The key, as an unsigned number.
    pub key: u128,
    /// The block.
    pub block: Name,
}
