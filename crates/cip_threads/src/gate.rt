//! A hook between step and commit.
use cip_base::ModuleId;

/// What stands between a module's step and its commit.
pub trait Gate {
    /// It is called outside the lock, after a step of module m, which committed k times so far.
    fn before_commit(&self, m: ModuleId, k: usize);
}

/// The gate that does nothing.
#[derive(Clone, Copy, Debug, Drop)]
pub struct OpenGate;

impl Gate for OpenGate {
    fn before_commit(&self, _m: ModuleId, _k: usize) {}
}
