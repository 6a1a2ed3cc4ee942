ghost use Rattle.std.specs.Prelude.{◌≡◌, ◌++◌, ℕ, List, OnOk, codes};
ghost use Rattle.std.specs.List.{join_by};
ghost use Rattle.status_page.specs.States.{array_text};

use fabric_terms::OutOfMemory;
use text_fields::push_bytes;

/// What is written as an entry of a list.
pub trait Entry {
    /// How it is spelled.
    ghost spelled: { Self → List ℕ };

    /// Appends it.
    fn push_to(&self, into: &mut Vec<u8>) -> Result<(), OutOfMemory>
        ensures { OnOk result (into.new.items ≡ into.old.items ++ spelled self.now) };
}

/// Appends entries with commas between.
fn push_joined<E: Entry>(into: &mut Vec<u8>, entries: &[E]) -> Result<(), OutOfMemory>
    ensures { OnOk result (into.new.items ≡ into.old.items ++ join_by E.spelled (codes ",") entries.now) }
{
    match entries {
        [] => Ok(()),
        [first, more @ ..] => {
            first.push_to(into)?;
            for entry in more {
                push_bytes(into, b",")?;
                entry.push_to(into)?;
            }
            Ok(())
        }
    }
}

/// Appends a list.
pub fn push_array<E: Entry>(into: &mut Vec<u8>, entries: &[E]) -> Result<(), OutOfMemory>
    ensures { OnOk result (into.new.items ≡ into.old.items ++ array_text E.spelled entries.now) }
{
    push_bytes(into, b"[")?;
    push_joined(into, entries)?;
    push_bytes(into, b"]")
}
