//! Why a file gives no bytes.

ghost use Rattle.std.specs.Prelude.{◌≡◌, length};

use std::io;
use std::io::ErrorKind;
use thiserror::Error;

/// Why a file gives no bytes.
#[derive(Clone, Copy, Debug, Error)]
pub enum Unread {
    #[error("an empty file name")]
    Nameless,
    #[error("there is no such file")]
    Missing,
    #[error("is a directory")]
    Directory,
    #[error("no permission to read it")]
    NoPermission,
    #[error("has more than 1,048,576 bytes")]
    TooLong,
    #[error("can't be read")]
    Failed,
}

/// Why a file of this name can't be opened or read, where that ends with the error.
pub fn unread_by(name: &str, error: &io::Error) -> Unread
    ensures { (length name.now ≡ 0) → result ≡ Unread.Nameless }
{
    if name.is_empty() {
        return Unread::Nameless;
    }
    match error.kind() {
        ErrorKind::NotFound => Unread::Missing,
        ErrorKind::PermissionDenied => Unread::NoPermission,
        ErrorKind::IsADirectory => Unread::Directory,
        _ => Unread::Failed,
    }
}
