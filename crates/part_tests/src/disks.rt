// Stand-ins for the machine's files, whose calls are noted and fail where a test wants it.
use crate::notes::Notes;
use fabric_edge::LockFiles;
use std::alloc::Allocator;
use std::cell::Cell;
use std::fs::{File, Metadata, OpenFile, OpenOptions};
use std::io::{ErrorKind, Read, Seek, SeekFrom, Write};
use std::rt::Files;
use std::{fs, io};

/// How a file breaks at its second record: in the write, after some of its bytes, or in the sync.
#[derive(Clone, Copy, Debug)]
pub enum Break {
    Write(usize),
    Sync,
}

/// The machine's files, of which the next that is opened to append breaks. What is to keep records for good is noted.
#[derive(Drop)]
pub struct Disk<'a> {
    pub rt: &'a HostRuntime,
    pub notes: &'a Notes,
    pub breaks: Cell<Option<Break>>,
}

#[derive(Drop)]
pub struct DiskFile<'a> {
    notes: &'a Notes,
    path: String,
    file: File,
    breaks: Option<Break>,
    records: usize,
}

impl DiskFile<'_> {
    /// Notes what is done to the file.
    fn note(&self, what: &str) -> io::Result<()> {
        let path = self.path.as_str();
        self.notes.add(format_args!("{what} {path}"))
    }
}

impl Read for DiskFile<'_> {
    fn read(&mut self, buf: &mut [u8]) -> io::Result<usize> {
        self.file.read(buf)
    }
}

impl Write for DiskFile<'_> {
    fn write(&mut self, buf: &[u8]) -> io::Result<usize> {
        self.note("write")?;
        self.records = self.records.saturating_add(1);
        if self.records == 2
            && let Some(Break::Write(count)) = self.breaks
        {
            self.file.write_all(&buf[..count.min(buf.len())])?;
            return Err(io::Error::from(ErrorKind::Other));
        }
        self.file.write(buf)
    }

    fn flush(&mut self) -> io::Result<()> {
        self.file.flush()
    }
}

impl Seek for DiskFile<'_> {
    fn seek(&mut self, to: SeekFrom) -> io::Result<u64> {
        self.file.seek(to)
    }
}

impl OpenFile for DiskFile<'_> {
    fn metadata(&self) -> io::Result<Metadata> {
        self.file.metadata()
    }

    fn set_len(&self, size: u64) -> io::Result<()> {
        self.note("cut")?;
        self.file.set_len(size)
    }

    fn sync_all(&self) -> io::Result<()> {
        self.note("sync")?;
        self.file.sync_all()
    }

    fn sync_data(&self) -> io::Result<()> {
        self.note("sync the data of")?;
        if self.records == 2 && matches!(self.breaks, Some(Break::Sync)) {
            return Err(io::Error::from(ErrorKind::Other));
        }
        self.file.sync_data()
    }
}

impl<'a> LockFiles for Disk<'a> {
    fn try_lock(&self, file: &DiskFile<'a>) -> io::Result<()> {
        file.note("lock")?;
        self.rt.try_lock(&file.file)
    }
}

impl<'a> Files for Disk<'a> {
    type File = DiskFile<'a>;

    type Dir = <HostRuntime as Files>::Dir;

    fn open_file(&self, how: &OpenOptions, path: &str) -> io::Result<DiskFile<'a>> {
        let file = self.rt.open_file(how, path)?;
        let breaks = if how.asks_append() {
            self.breaks.take()
        } else {
            None
        };
        Ok(DiskFile {
            notes: self.notes,
            path: String::from_str(self.rt.alloc(), path)?,
            file,
            breaks,
            records: 0,
        })
    }

    fn open_dir(&self, path: &str) -> io::Result<Self::Dir> {
        self.rt.open_dir(path)
    }

    fn metadata(&self, path: &str) -> io::Result<Metadata> {
        fs::metadata(self.rt, path)
    }

    fn symlink_metadata(&self, path: &str) -> io::Result<Metadata> {
        fs::symlink_metadata(self.rt, path)
    }

    fn copy(&self, from: &str, to: &str) -> io::Result<u64> {
        fs::copy(self.rt, from, to)
    }

    fn rename(&self, from: &str, to: &str) -> io::Result<()> {
        fs::rename(self.rt, from, to)
    }

    fn remove_file(&self, path: &str) -> io::Result<()> {
        fs::remove_file(self.rt, path)
    }

    fn create_dir(&self, path: &str) -> io::Result<()> {
        fs::create_dir(self.rt, path)
    }

    fn remove_dir(&self, path: &str) -> io::Result<()> {
        fs::remove_dir(self.rt, path)
    }

    fn remove_dir_all<B: Allocator>(&self, alloc: B, path: &str) -> io::Result<()> {
        self.rt.remove_dir_all(alloc, path)
    }
}
