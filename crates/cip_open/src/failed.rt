//! The reply of a failed open.
ghost use Rattle.std.specs.Prelude.{◌≡◌, false, IfOk};
ghost use Rattle.cip_message.specs.Exact.{IsRead};
ghost use Rattle.cip_message.specs.Failure.{ReadsFailure, IsFailureFault, failure_at};
ghost use Rattle.cip_message.specs.Failure.{HasTriadForWords};
ghost use Rattle.cip_open.specs.Failed.{open_failure_bytes};
ghost use Rattle.cip_open.specs.Reading.{failure_of};

use crate::kinds::open_reply_service;
use cip_base::{Bytes, NoMemory, Status, Triad};
use cip_message::{ConnectionFailure, DataFault, read_failure, write_failure};
use std::alloc::Global;

/// What the data of a failed open says (Volume 1, chapter 3, Forward_Open and Large_Forward_Open,
/// unsuccessful response): the connection that was asked for, and how many 16-bit words of path
/// were left where the fault was found. Each is None where its bytes are missing.
#[derive(Clone, Copy, Debug, PartialEq, Eq)]
pub struct OpenFailure {
    pub triad: Option<Triad>,
    pub words: Option<u8>,
    /// Whether the reply is that of a Large_Forward_Open: it picks the service that is written.
    pub large: bool,
}

/// The failure that the data of a failed open says; the data is what follows the reply's status:
/// none, or the connection triad and then perhaps the words of path that were left; what follows
/// the words is not kept (Volume 1, chapter 3, Forward_Open and Large_Forward_Open, unsuccessful
/// response). The data does not tell the service: `large` is false. It takes no memory.
///
/// Short from 1 to 7 bytes.
pub fn read_open_failure(data_: &[u8]) -> Result<OpenFailure, DataFault>
    ensures read { IsRead failure_of failure_at ReadsFailure IsFailureFault data_.now result }
    ensures standard { IfOk result (λ f. f.large ≡ false) }
{
    match read_failure(data_) {
        Ok(ConnectionFailure { triad, words }) => Ok(OpenFailure {
            triad,
            words,
            large: false,
        }),
        Err(fault) => Err(fault),
    }
}

/// The whole message of a failed open: the reply's header with at most one word of additional
/// status, the connection triad if there is one, then the words and a reserved 00 if there are
/// words. There are no words without a triad (Volume 1, chapter 3, Forward_Open and
/// Large_Forward_Open, unsuccessful response).
pub fn write_open_failure(
    alloc: Global,
    status: Status,
    failure: &OpenFailure,
) -> Result<Bytes, NoMemory>
    requires { HasTriadForWords (failure_of failure.now) }
    ensures { IfOk result
        (λ b. b ≡ open_failure_bytes failure.now.large status (failure_of failure.now)) }
{
    let told = ConnectionFailure {
        triad: failure.triad,
        words: failure.words,
    };
    write_failure(alloc, open_reply_service(failure.large), status, &told)
}
