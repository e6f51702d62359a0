//! The ways to make an activation.

/// What makes an activation.
#[derive(Clone, Copy, PartialEq, Eq)]
pub enum CallKind {
    /// A CALL: the new activation is above the calling one (X3.9-1978, 15.6.2).
    Calls,
    /// A CREATE: the new activation is a process of its own (`docs/LANGUAGE.md`).
    Creates,
    /// A reference of a function: the new activation is above the referring one (15.5.2).
    Refers,
}
