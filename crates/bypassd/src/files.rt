//! Files that are opened at their first use, so that a command opens those that it reaches and no others.
use std::fs::File;
use std::io;
use std::io::{Read, Write};
use std::rt::Files;

/// A file that is opened at its first read.
#[derive(Drop)]
pub(crate) struct InputFile<'a, R: Files> {
    files: &'a R,
    path: &'a str,
    file: Option<R::File>,
}

impl<'a, R: Files> InputFile<'a, R> {
    /// The file at this path, not opened yet.
    pub(crate) fn new(files: &'a R, path: &'a str) -> InputFile<'a, R> {
        InputFile {
            files,
            path,
            file: None,
        }
    }
}

impl<'a, R: Files> Read for InputFile<'a, R> {
    /// Reads once. The first read fails where the file cannot be opened.
    fn read(&mut self, buf: &mut [u8]) -> io::Result<usize> {
        if let Some(file) = &mut self.file {
            return file.read(buf);
        }
        let mut file = File::open(self.files, self.path)?;
        let count = file.read(buf)?;
        self.file = Some(file);
        Ok(count)
    }
}

/// A file that is created, or emptied, at its first write.
#[derive(Drop)]
pub(crate) struct OutputFile<'a, R: Files> {
    files: &'a R,
    path: &'a str,
    file: Option<R::File>,
}

impl<'a, R: Files> OutputFile<'a, R> {
    /// The file at this path, not created yet.
    pub(crate) fn new(files: &'a R, path: &'a str) -> OutputFile<'a, R> {
        OutputFile {
            files,
            path,
            file: None,
        }
    }
}

impl<'a, R: Files> Write for OutputFile<'a, R> {
    /// Writes once. The first write fails where the file cannot be created.
    fn write(&mut self, buf: &[u8]) -> io::Result<usize> {
        if let Some(file) = &mut self.file {
            return file.write(buf);
        }
        let mut file = File::create(self.files, self.path)?;
        let count = file.write(buf)?;
        self.file = Some(file);
        Ok(count)
    }

    fn flush(&mut self) -> io::Result<()> {
        match &mut self.file {
            Some(file) => file.flush(),
            None => Ok(()),
        }
    }
}
