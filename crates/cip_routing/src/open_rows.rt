//! Which row an open meets that cannot be read.
ghost use Rattle.std.specs.Prelude.{◌≡◌};
ghost use Rattle.cip_routing.specs.OpenRows.{unread_row};

use crate::refusals::OpenRefusal;
use cip_message::DataFault;
use cip_open::open_fixed_part;

/// The row of data that cannot be read as an open, large or not.
pub(crate) fn unread_row(large: bool, data_: &[u8], fault: DataFault) -> OpenRefusal
    ensures { result ≡ unread_row large data_.now fault }
{
    match fault {
        DataFault::Short => {
            if data_.len() < open_fixed_part(large) {
                OpenRefusal::CutInTheFixedPart
            } else {
                OpenRefusal::CutInThePath
            }
        }
        DataFault::Long => OpenRefusal::BytesAfterThePath,
        DataFault::Path(_) => OpenRefusal::PathUnreadable,
    }
}
