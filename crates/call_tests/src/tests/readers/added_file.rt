//! A file to which another process adds.
use gx_station::ImageFile;
use std::io;
use std::io::ErrorKind;

/// A file that has one image for so many calls of it, and another one from then on.
#[derive(Drop)]
pub struct AddedFile<'a> {
    pub before: &'a [u8],
    pub after: &'a [u8],
    pub calls: usize,
}

impl AddedFile<'_> {
    /// The image at this call.
    fn image(&mut self) -> &[u8] {
        if self.calls == 0 {
            return self.after;
        }
        self.calls -= 1;
        self.before
    }
}

impl ImageFile for AddedFile<'_> {
    ghost use Rattle.gx_station.specs.ImageFiles.{FileMeanings};

    ghost meanings = { record
        { measured = λ _ _ _. Unit {0}; read = λ _ _ _ _ _. Unit {0}; wrote = λ _ _ _ _ _. Unit {0}; synced = λ _ _ _. Unit {0}; locked = λ _ _ _. Unit {0} } };

    fn length(&mut self) -> io::Result<u64> {
        Ok(self.image().len() as u64)
    }

    fn read_whole(&mut self, at: u64, into: &mut [u8]) -> io::Result<()> {
        let image = self.image();
        if at > image.len() as u64 || into.len() > image.len() - at as usize {
            return Err(io::Error::from(ErrorKind::UnexpectedEof));
        }
        let start = at as usize;
        into.copy_from_slice(&image[start..start + into.len()]);
        Ok(())
    }

    fn write_whole(&mut self, _at: u64, _bytes: &[u8]) -> io::Result<()> {
        Err(io::Error::from(ErrorKind::PermissionDenied))
    }

    fn sync(&mut self) -> io::Result<()> {
        Err(io::Error::from(ErrorKind::PermissionDenied))
    }

    fn take_lock(&mut self) -> io::Result<()> {
        Err(io::Error::from(ErrorKind::PermissionDenied))
    }
}
