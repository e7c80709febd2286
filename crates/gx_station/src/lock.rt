//! A file with its exclusive lock.
ghost use Rattle.gx_station.specs.Locks.{IsLocked};

use crate::image_file::ImageFile;

/// The file with its exclusive lock, or none where another open of it has a lock, or it cannot be locked. The lock is
/// given back where the file is dropped.
pub fn locked<F: ImageFile + Drop>(file: F) -> Option<F>
    ensures { IsLocked F.meanings file result }
{
    let mut file = file;
    match file.take_lock() {
        Ok(()) => Some(file),
        Err(_) => None,
    }
}
