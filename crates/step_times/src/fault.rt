//! Why steps are not taken.
use cip_module::StepFault;
use std::alloc::AllocError;

/// Why steps are not taken.
#[derive(Clone, Copy)]
pub enum TimesFault {
    /// An allocation was refused.
    NoMemory,
    /// The bridge did not send what was expected.
    Unexpected,
}

impl From<AllocError> for TimesFault {
    fn from(_refused: AllocError) -> TimesFault {
        TimesFault::NoMemory
    }
}

impl From<StepFault> for TimesFault {
    fn from(fault: StepFault) -> TimesFault {
        match fault {
            StepFault::NoMemory(_) => TimesFault::NoMemory,
            StepFault::ClockFull(_) => TimesFault::Unexpected,
        }
    }
}
