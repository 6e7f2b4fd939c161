//! The reply of a failed Forward_Close.
ghost use Rattle.std.specs.Prelude.{◌≡◌, IfOk};
ghost use Rattle.cip_message.specs.Exact.{IsRead};
ghost use Rattle.cip_message.specs.Failure.{ReadsFailure, IsFailureFault, failure_at};
ghost use Rattle.cip_message.specs.Failure.{HasTriadForWords};
ghost use Rattle.cip_close.specs.Failed.{close_failure_bytes};

use crate::request::FORWARD_CLOSE_REPLY;
use cip_base::{Bytes, NoMemory, Status};
use cip_message::{ConnectionFailure, DataFault, read_failure, write_failure};
use std::alloc::Global;

/// What the data of a failed Forward_Close says.
pub type CloseFailure = ConnectionFailure;

/// The failure that the data of a failed Forward_Close says; the data is what follows the reply's
/// status: none, or the connection triad and then perhaps the words of path that were left; what
/// follows the words is not kept (Volume 1, chapter 3, Forward_Close, unsuccessful response). It
/// takes no memory.
///
/// Short from 1 to 7 bytes.
pub fn read_close_failure(data_: &[u8]) -> Result<CloseFailure, DataFault>
    ensures { IsRead (λ f. f) failure_at ReadsFailure IsFailureFault data_.now result }
{
    read_failure(data_)
}

/// The whole message of a failed Forward_Close: the reply's header with at most one word of
/// additional status, the connection triad if there is one, then the words and a reserved 00 if
/// there are words. There are no words without a triad (Volume 1, chapter 3, Forward_Close,
/// unsuccessful response).
pub fn write_close_failure(
    alloc: Global,
    status: Status,
    failure: &CloseFailure,
) -> Result<Bytes, NoMemory>
    requires { HasTriadForWords failure.now }
    ensures { IfOk result (λ b. b ≡ close_failure_bytes status failure.now) }
{
    write_failure(alloc, FORWARD_CLOSE_REPLY, status, failure)
}
