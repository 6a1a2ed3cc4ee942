ghost use Rattle.std.specs.Prelude.{◌≡◌, ◌++◌, OnOk};
ghost use Rattle.serve_top.specs.Addresses.{short};
ghost use Rattle.serve_top.specs.Ends.{code_of, folder_word, last_line, named};
ghost use Rattle.serve_top.specs.declared.end.End.TheVariants as end;
ghost use Rattle.text_fields.specs.Texts.{Keeps};

use fabric_status::{Status, push_fault};
use fabric_terms::OutOfMemory;
use serve_edge::StartFault;
use service_file::ServiceField;
use std::alloc::{AllocError, AllocFailed, Global};
use text_fields::push_bytes;

/// Why the folder of an actor is refused, beside what its files and locks say.
#[derive(Clone, Copy, Debug, PartialEq, Eq)]
pub enum FolderFault {
    /// The file `actor` is not of its grammar.
    Actor,
    /// The folder is of another actor.
    Other,
    /// The folder is of another configuration.
    Config,
    /// Records that the file `actor` knows of are not kept.
    Emptied,
}

/// How `fabricd` ends. Each but those without a line writes a last line that names it.
#[derive(Drop)]
pub enum End {
    /// As `fabric` ends at this status.
    As(Status),
    /// A step of the start over files and sockets failed.
    Start(StartFault),
    /// Line 2 of FILE is refused.
    Service(ServiceField),
    /// An address is none; the text as it is shown.
    Address(Vec<u8>),
    /// The folder is refused.
    Folder(FolderFault),
    /// The parent was silent for too long.
    Silent,
    /// An answer that was asked for has a word that says that a line was not done.
    Undone,
    /// The folders of a ring do not lead to a line 2: why, and which folder.
    Again(Vec<u8>),
    /// There is no process behind the door, or it does not answer.
    NoDoor,
}

/// The end at want of memory.
pub(crate) fn short() -> End
    ensures { result ≡ short }
{
    End::As(Status::OutOfMemory)
}

impl From<OutOfMemory> for End {
    ghost from_gives = { λ _ gives. gives ≡ short };

    fn from(_refused: OutOfMemory) -> End {
        short()
    }
}

impl From<AllocError> for End {
    ghost from_gives = { λ _ gives. gives ≡ short };

    fn from(_refused: AllocError) -> End {
        short()
    }
}

impl<T: Drop> From<AllocFailed<T>> for End {
    ghost from_gives = { λ _ gives. gives ≡ short };

    fn from(_refused: AllocFailed<T>) -> End {
        short()
    }
}

impl From<StartFault> for End {
    ghost from_gives = { λ fault gives. gives ≡ end.Start fault };

    fn from(fault: StartFault) -> End {
        End::Start(fault)
    }
}

impl End {
    /// The exit status of the program.
    pub fn code(&self) -> u8
        ensures { result ≡ code_of self.now }
    {
        match self {
            End::As(status) => status.code(),
            End::Start(fault) => fault.code(),
            End::Service(_) => 16,
            End::Folder(_) => 17,
            End::Address(_) => 18,
            End::Silent => 19,
            End::Undone => 20,
            End::NoDoor => 21,
            End::Again(_) => 22,
        }
    }
}

fn folder_word(fault: FolderFault) -> &'static [u8]
    ensures { result.now ≡ folder_word fault }
{
    match fault {
        FolderFault::Actor => b"actor",
        FolderFault::Other => b"other",
        FolderFault::Config => b"config",
        FolderFault::Emptied => b"emptied",
    }
}

/// Appends words, a text and a line feed.
fn push_words(into: &mut Vec<u8>, words: &[u8], text: &[u8]) -> Result<(), OutOfMemory>
    ensures ok { OnOk result (into.new.items ≡ into.old.items ++ named words.now text.now) }
    ensures kept { Keeps into.old.items into.new.items }
{
    push_bytes(into, words)?;
    push_bytes(into, text)?;
    push_bytes(into, b"\n")
}

/// Appends the last line of the program, where it has one. At want of memory a front of it may be written.
pub fn push_last_line(alloc: Global, into: &mut Vec<u8>, end: &End) -> Result<(), OutOfMemory>
    ensures ok { OnOk result (into.new.items ≡ into.old.items ++ last_line end.now) }
    ensures kept { Keeps into.old.items into.new.items }
{
    match end {
        End::As(status) => push_fault(alloc, into, *status),
        End::Start(fault) => push_bytes(into, fault.line()),
        End::Service(field) => push_words(into, b"fault service ", field.words().as_bytes()),
        End::Address(text) => push_words(into, b"fault address ", text),
        End::Folder(fault) => push_words(into, b"fault folder ", folder_word(*fault)),
        End::Silent => push_bytes(into, b"fault silent\n"),
        End::Undone => Ok(()),
        End::NoDoor => push_bytes(into, b"fault door\n"),
        End::Again(words) => push_words(into, b"fault again ", words),
    }
}
