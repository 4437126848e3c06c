//! The file to which the bytes of packs go.

use std::fs::{self, File, Metadata, OpenOptions, Permissions};
use std::io::{self, ErrorKind};
use std::os::unix::fs::MetadataExt;

/// How many names are tried for a file beside another.
const MOST_PARTS: u32 = 1_000;

/// Where the bytes of packs go.
///
/// A regular file, or one that is not there yet, is written beside its place, as a part, and put there once all has come. Anything else
/// with the name, such as a device, a pipe or a link that leads nowhere, is written directly.
#[derive(Drop)]
pub(crate) struct PackFile {
    /// The file that is written.
    pub(crate) file: File,
    /// What is left to do with it, if it is a part.
    pub(crate) part: Option<Part>,
}

/// The name of a file beside the place where it belongs.
#[derive(Drop)]
pub(crate) struct Part {
    path: String,
    place: String,
}

impl PackFile {
    /// Opens the file of this name. One that is there is not changed before [`Part::finish`].
    pub(crate) fn open(rt: &HostRuntime, path: &str) -> io::Result<PackFile> {
        match fs::metadata(rt, path) {
            Ok(found) if is_replaced(&found) => PackFile::replacing(rt, path, found.permissions()),
            Err(error) if error.kind() == ErrorKind::NotFound && is_free(rt, path) => {
                let (file, part) = Part::create(rt, String::from_str(rt.alloc(), path)?)?;
                let part = Some(part);
                Ok(PackFile { file, part })
            }
            _ => Ok(PackFile {
                file: File::create(rt, path)?,
                part: None,
            }),
        }
    }

    /// A file that will replace the one of this name, with its permissions. If that one may not be written, this fails. A link stays, and
    /// the file that it leads to is replaced.
    fn replacing(rt: &HostRuntime, path: &str, permissions: Permissions) -> io::Result<PackFile> {
        OpenOptions::new().write(true).open(rt, path)?;
        let place = match fs::symlink_metadata(rt, path)?.is_symlink() {
            true => fs::canonicalize(rt, path)?.into_string(),
            false => String::from_str(rt.alloc(), path)?,
        };
        let (file, part) = Part::create(rt, place)?;
        match file.set_permissions(permissions) {
            Ok(()) => {
                let part = Some(part);
                Ok(PackFile { file, part })
            }
            Err(error) => {
                part.remove(rt);
                Err(error)
            }
        }
    }
}

impl Part {
    /// Makes a new file beside this place, with a name that nothing had.
    fn create(rt: &HostRuntime, place: String) -> io::Result<(File, Part)> {
        for number in 1..=MOST_PARTS {
            let path = format!(in rt.alloc(); "{place}.part{number}")?;
            match File::create_new(rt, &path) {
                Ok(file) => return Ok((file, Part { path, place })),
                Err(error) if error.kind() == ErrorKind::AlreadyExists => {}
                Err(error) => return Err(error),
            }
        }
        Err(ErrorKind::AlreadyExists.into())
    }

    /// Puts the file in its place once the system has stored its bytes, or removes it if that fails: a write may fail as late as that.
    pub(crate) fn finish(self, rt: &HostRuntime, file: &File) -> io::Result<()> {
        let placed = self.place_stored(rt, file);
        if placed.is_err() {
            self.remove(rt);
        }
        placed
    }

    fn place_stored(&self, rt: &HostRuntime, file: &File) -> io::Result<()> {
        file.sync_all()?;
        fs::rename(rt, &self.path, &self.place)
    }

    /// Removes the file, and leaves what is in its place.
    pub(crate) fn remove(self, rt: &HostRuntime) {
        // A file that cannot be removed stays.
        let _ = fs::remove_file(rt, &self.path);
    }
}

/// Whether what has a name is replaced: a regular file that has one. An open file that was removed, as below `/dev/fd`, has none.
fn is_replaced(found: &Metadata) -> bool {
    found.is_file() && found.nlink() > 0
}

/// Whether a file of this name can be made if there is none: the name is not that of a link that leads nowhere.
fn is_free(rt: &HostRuntime, path: &str) -> bool {
    !path.is_empty() && fs::symlink_metadata(rt, path).is_err()
}
