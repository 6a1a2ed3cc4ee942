ghost use Rattle.std.specs.Prelude.{◌≡◌, Bool, List, Option, true, ℕ};
ghost use Rattle.edge_io.specs.Edge.{Grew};

/// The lines of a parent, as its devices see them. No call waits or fails: a parent that does not read comes to its end.
pub trait ParentLines {
    /// What was said to the parent, where it tells.
    ghost said: { Self → Option (List ℕ) };

    /// Whether the parent is taken for silent.
    ghost silent: { Self → Bool };

    /// Takes in what the parent has sent by now.
    fn gather(&mut self)
        ensures said { said self.new ≡ said self.old }
        ensures silent { silent self.old ≡ true → silent self.new ≡ true };

    /// Says the text to the parent.
    fn say(&mut self, text: &[u8])
        ensures said { Grew (said self.old) (said self.new) text.now }
        ensures silent { silent self.new ≡ silent self.old };

    /// The parent owes a `done` for too long: its end is next.
    fn silence(&mut self)
        ensures said { said self.new ≡ said self.old }
        ensures silent { silent self.new ≡ true };

    /// So many frames wait until the parent has let go.
    fn note_held(&mut self, frames: usize)
        ensures said { said self.new ≡ said self.old }
        ensures silent { silent self.new ≡ silent self.old };
}
