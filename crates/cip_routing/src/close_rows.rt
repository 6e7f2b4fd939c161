//! Which row a Forward_Close meets that cannot be read.
ghost use Rattle.std.specs.Prelude.{◌≡◌};
ghost use Rattle.cip_routing.specs.CloseRows.{unread_row};

use crate::refusals::CloseRefusal;
use cip_close::CLOSE_FIXED_PART;
use cip_message::DataFault;

/// The row of data that cannot be read as a Forward_Close.
pub(crate) fn unread_row(data_: &[u8], fault: DataFault) -> CloseRefusal
    ensures { result ≡ unread_row data_.now fault }
{
    match fault {
        DataFault::Short => {
            if data_.len() < CLOSE_FIXED_PART {
                CloseRefusal::CutInTheFixedPart
            } else {
                CloseRefusal::CutInThePath
            }
        }
        DataFault::Long => CloseRefusal::BytesAfterThePath,
        DataFault::Path(_) => CloseRefusal::PathUnreadable,
    }
}
