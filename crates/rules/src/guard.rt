// A guard's identity; it is attached while the record of that identity counts it among its aliases.
use crate::identity::Identity;

#[derive(Clone, Copy)]
pub struct Guard {
    pub identity: Identity,
    pub attached: bool,
}
