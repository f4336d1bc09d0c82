// Directories are made.
ghost use Rattle.std.specs.Prelude.{◌≡◌};
ghost use Rattle.ex_store.specs.Building.{built};

use crate::Directory;
use crate::directories::Directories;
use crate::limits::DIRECTORY_LIMIT;
use cm_fields::Code;
use cm_text::Name;

// The directory that is made, or the limit that is passed.
pub(crate) fn built(
    directories: &Directories,
    name: Name,
    retention: Option<u8>,
) -> Result<Directory, Code>
    ensures { result ≡ built name retention directories.now.list }
{
    let kept = match directories.retention(name.as_str()) {
        Some(kept) => kept,
        None if directories.len() >= DIRECTORY_LIMIT => return Err(Code::DirLimit),
        None => 1,
    };
    let retention = retention.unwrap_or(kept);
    Ok(Directory { name, retention })
}
