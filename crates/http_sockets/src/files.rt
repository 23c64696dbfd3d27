//! The file of a Unix socket, which its owner alone may open.
//!
//! What stands at a path, and what a call makes there, the system alone sees. What its answers mean is proved.
ghost use Rattle.std.specs.Prelude.{◌≡◌, ◌↔◌, IfErr, IsErrAnd, IsOk};
ghost use Rattle.std.specs.IoError.{error_kind};
ghost use Rattle.http_sockets.specs.Listening.{IsReplaced};

use mio::net::{UnixListener, UnixStream};
use std::alloc::Global;
use std::fs::{self, DirBuilder, Permissions};
use std::io::{self, ErrorKind};
use std::os::unix::fs::{DirBuilderExt, FileTypeExt, PermissionsExt};

/// Listens on a path. A socket that a stopped desk left there is replaced; another file is not, nor is a socket that somebody
/// listens on.
///
/// The socket is made in a folder that its owner alone may enter, and gets its path when it has its mode: nobody else can
/// open it meanwhile.
pub(crate) fn listen_at(rt: &HostRuntime, alloc: Global, path: &str) -> io::Result<UnixListener> {
    check_free(rt, path)?;
    let folder = format!(in alloc; "{path}.new")?;
    let inside = format!(in alloc; "{path}.new/s")?;
    remove_folder(rt, folder.as_str(), inside.as_str());
    DirBuilder::new().mode(0o700).create(rt, folder.as_str())?;
    let listener = listen_inside(rt, inside.as_str(), path);
    remove_folder(rt, folder.as_str(), inside.as_str());
    listener
}

/// Whether a socket stands at a path. What stands at its end is not followed.
pub fn is_socket_at(rt: &HostRuntime, path: &str) -> io::Result<bool> {
    Ok(fs::symlink_metadata(rt, path)?.file_type().is_socket())
}

/// Reports an error unless the path has no file, or a socket that nobody listens on.
fn check_free(rt: &HostRuntime, path: &str) -> io::Result<()> {
    if is_replaced(is_socket_at(rt, path))? {
        return check_unheard(&UnixStream::connect(rt, path));
    }
    Ok(())
}

/// Whether a socket stands at a path, to be replaced, by what was found there. Another file is an error.
fn is_replaced(found: io::Result<bool>) -> io::Result<bool>
    ensures replaced { IsReplaced found result }
{
    match found {
        Ok(true) => Ok(true),
        Ok(false) => Err(io::Error::from(ErrorKind::AlreadyExists)),
        Err(error) if error.kind() == ErrorKind::NotFound => Ok(false),
        Err(error) => Err(error),
    }
}

/// Reports an error unless nobody listens on a socket: a connection to it was refused.
fn check_unheard(connected: &io::Result<UnixStream>) -> io::Result<()>
    ensures unheard { IsOk result
        ↔ IsErrAnd connected.now (λ error. error_kind error ≡ ErrorKind.ConnectionRefused) }
    ensures heard { IfErr result (λ error. error_kind error ≡ ErrorKind.AddrInUse) }
{
    match connected {
        Err(error) if error.kind() == ErrorKind::ConnectionRefused => Ok(()),
        _ => Err(io::Error::from(ErrorKind::AddrInUse)),
    }
}

/// Listens on a path inside the folder, and moves the socket to its own path.
fn listen_inside(rt: &HostRuntime, inside: &str, path: &str) -> io::Result<UnixListener> {
    let listener = UnixListener::bind(rt, inside)?;
    fs::set_permissions(rt, inside, Permissions::from_mode(0o600))?;
    fs::rename(rt, inside, path)?;
    Ok(listener)
}

/// Removes the folder, and the socket in it, where they are there.
fn remove_folder(rt: &HostRuntime, folder: &str, inside: &str) {
    let _ = fs::remove_file(rt, inside);
    let _ = fs::remove_dir(rt, folder);
}
