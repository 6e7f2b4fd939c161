//! The data of a failed Forward_Open or Forward_Close.
ghost use Rattle.std.specs.Prelude.{◌≡◌, ◌++◌, IfOk, OnOk};
ghost use Rattle.cip_message.specs.Gives.{Gives};
ghost use Rattle.cip_message.specs.Exact.{IsRead};
ghost use Rattle.cip_message.specs.Failure.{ReadsFailure, IsFailureFault, failure_at, failure_data};
ghost use Rattle.cip_message.specs.Failure.{failure_bytes, HasTriadForWords};

use crate::fault::DataFault;
use crate::numbers::{put_triad, triad_within};
use crate::reply::put_reply_header;
use cip_base::{Bytes, NoMemory, Status, Triad};
use std::alloc::{AllocError, Global};

/// What the data of a failed Forward_Open or Forward_Close says (Volume 1, chapter 3): the
/// connection that was asked for, and how many 16-bit words of path were left where the fault was
/// found. Each is None where its bytes are missing.
#[derive(Clone, Copy, Debug, PartialEq, Eq)]
pub struct ConnectionFailure {
    pub triad: Option<Triad>,
    pub words: Option<u8>,
}

#[tactic(auto, unfolding(crate::specs::Failure::failure_at))]
fn failure(data_: &[u8]) -> Result<ConnectionFailure, DataFault>
    ensures { Gives (λ f. f) result (failure_at data_.now) }
{
    if data_.is_empty() {
        return Ok(ConnectionFailure {
            triad: None,
            words: None,
        });
    }
    if data_.len() < 8 {
        return Err(DataFault::Short);
    }
    Ok(ConnectionFailure {
        triad: triad_within(data_, 0),
        words: data_.get(8).copied(),
    })
}

/// The failure that the data of a failed Forward_Open or Forward_Close says: no data, or the eight
/// bytes of the triad and then perhaps the words; what follows the words is not kept (Volume 1,
/// chapter 3). Short from 1 to 7 bytes. It takes no memory.
pub fn read_failure(data_: &[u8]) -> Result<ConnectionFailure, DataFault>
    ensures { IsRead (λ f. f) failure_at ReadsFailure IsFailureFault data_.now result }
{
    failure(data_)
}

/// Appends the data of a failure: the triad if there is one, then the words and a reserved 00 if
/// there are words. There are no words without a triad.
pub fn put_failure(out: &mut Vec<u8>, failure: &ConnectionFailure) -> Result<(), AllocError>
    requires { HasTriadForWords failure.now }
    ensures { OnOk result (out.new.items ≡ out.old.items ++ failure_data failure.now) }
{
    if let Some(triad) = failure.triad {
        put_triad(out, triad)?;
    }
    if let Some(words) = failure.words {
        out.push(words)?;
        out.push(0)?;
    }
    Ok(())
}

fn joined(
    alloc: Global,
    service: u8,
    status: Status,
    failure: &ConnectionFailure,
) -> Result<Vec<u8>, AllocError>
    requires { HasTriadForWords failure.now }
    ensures { IfOk result (λ v. v.items ≡ failure_bytes service status failure.now) }
{
    let mut bytes = Vec::new(alloc);
    put_reply_header(&mut bytes, service, status)?;
    put_failure(&mut bytes, failure)?;
    Ok(bytes)
}

/// The whole message of a failed Forward_Open or Forward_Close: the header of a reply of this
/// service with at most one word of additional status, and the data of the failure (Volume 1,
/// chapter 3). There are no words without a triad.
pub fn write_failure(
    alloc: Global,
    service: u8,
    status: Status,
    failure: &ConnectionFailure,
) -> Result<Bytes, NoMemory>
    requires { HasTriadForWords failure.now }
    ensures { IfOk result (λ b. b ≡ failure_bytes service status failure.now) }
{
    Ok(Bytes::of(joined(alloc, service, status, failure)?))
}
