use crate::folder_paths::sync_folders;
use crate::record_file::records_in;
use std::alloc::Global;
use std::fs::OpenFile;
use std::io;
use std::io::{Read, Seek, SeekFrom, Write};
use std::rt::Files;

/// The file of an actor that this process alone appends to: it has its lock as long as it is open.
#[derive(Drop)]
pub struct HeldFile<R: Files> {
    file: R::File,
    /// Whether all bytes of the file are whole records, and its name is kept for good.
    is_settled: bool,
    /// Whether a record was written since the last sync.
    is_pending: bool,
}

impl<R: Files> HeldFile<R> {
    pub fn new(file: R::File) -> Self {
        HeldFile {
            file,
            is_settled: false,
            is_pending: false,
        }
    }

    /// Whether the file has no byte.
    pub fn is_empty(&self) -> io::Result<bool> {
        Ok(self.file.metadata()?.len() == 0)
    }

    /// Appends a framed record, which is pending until the next sync.
    pub fn append(&mut self, rt: &R, alloc: Global, framed: &[u8]) -> io::Result<()> {
        if !self.is_settled {
            self.settle(rt, alloc)?;
        }
        self.is_settled = false;
        self.file.write_all(framed)?;
        self.is_settled = true;
        self.is_pending = true;
        Ok(())
    }

    /// Waits until all records are kept for good.
    pub fn sync(&mut self) -> io::Result<()> {
        if !self.is_pending {
            return Ok(());
        }
        self.is_settled = false;
        self.file.sync_data()?;
        self.is_settled = true;
        self.is_pending = false;
        Ok(())
    }

    /// Cuts off what is no whole record at the end, and waits until the file and its name are kept for good. So a
    /// record that a process wrote, and could not sync before it ended, is kept once the next process goes on behind
    /// it.
    fn settle(&mut self, rt: &R, alloc: Global) -> io::Result<()> {
        self.file.seek(SeekFrom::Start(0))?;
        let bytes = bytes_of(alloc, &mut self.file)?;
        let (_, end) = records_in(alloc, &bytes)?;
        if end < bytes.len() {
            self.file.set_len(end as u64)?;
        }
        self.file.sync_all()?;
        sync_folders(rt)
    }
}

/// All bytes of a file.
pub fn bytes_of<F: Read>(alloc: Global, file: &mut F) -> io::Result<Vec<u8>> {
    let mut bytes = Vec::new(alloc);
    file.read_to_end(&mut bytes)?;
    Ok(bytes)
}
