//! The words of a transcript in plain sentences.
ghost use Rattle.std.specs.Prelude.{◌≡◌, Some};
ghost use Rattle.cip_read.specs.Heads.{command_of};
ghost use Rattle.cip_read.specs.Outputs.{refusal_of, drop_of};

use cip_event::{Dropped, Refused};
use cip_read::CommandWord;

/// Why a command was refused.
pub fn refusal_reason(fault: Refused) -> &'static str {
    match fault {
        Refused::OpUsed => "the op was used before",
        Refused::NotOpen => "no connection of that op is open here",
        Refused::WrongSize =>
            "the size is not that of the connection or the assembly, or is too large",
        Refused::ReservedService => "an Unconnected_Send does not go into an Unconnected_Send",
        Refused::NoInstance => "the module has no such assembly",
    }
}

/// The word of a refusal.
pub fn refusal_word(fault: Refused) -> &'static str
    ensures { refusal_of result.now ≡ Some fault }
{
    match fault {
        Refused::OpUsed => "OpUsed",
        Refused::NotOpen => "NotOpen",
        Refused::WrongSize => "WrongSize",
        Refused::ReservedService => "ReservedService",
        Refused::NoInstance => "NoInstance",
    }
}

/// Why a frame was dropped.
pub fn drop_reason(reason: Dropped) -> &'static str {
    match reason {
        Dropped::Malformed => "it is no request and no reply, is too long, or came by no port",
        Dropped::Late => "nobody waits for this reply any more",
        Dropped::UnknownId => "no connection has this id here",
        Dropped::WrongSize => "the datum does not have the size of its direction",
    }
}

/// The word of a drop.
pub fn drop_word(reason: Dropped) -> &'static str
    ensures { drop_of result.now ≡ Some reason }
{
    match reason {
        Dropped::Malformed => "Malformed",
        Dropped::Late => "Late",
        Dropped::UnknownId => "UnknownId",
        Dropped::WrongSize => "WrongSize",
    }
}

/// The word of a command.
pub fn command_word(word: CommandWord) -> &'static str
    ensures { command_of result.now ≡ Some word }
{
    match word {
        CommandWord::Send => "send",
        CommandWord::Open => "open",
        CommandWord::Large => "large",
        CommandWord::Close => "close",
        CommandWord::Enter => "enter",
        CommandWord::Set => "set",
        CommandWord::Produce => "produce",
    }
}
