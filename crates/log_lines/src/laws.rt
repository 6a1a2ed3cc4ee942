// What comes out of a queue, in the words of its definitions.
ghost use Rattle.std.specs.Prelude.{◌<◌, ◌++◌, ◌∷◌, [], ℕ, List, drop, length, take};
ghost use Rattle.log_lines.specs.Pieces.{Push, Went};
ghost use Rattle.log_lines.specs.Queues.{Queue, fresh_queue, greatest_count, has_room, queue_after};

/// What was pushed is what was taken and what still waits, in order, but for the lines that were dropped; what the
/// notices count and what is still to be counted is how many these were.
pub fn what_is_pushed_is_taken()
    ensures begin { Went [] [] fresh_queue }
    ensures push { (pushes : List Push) (taken : List ℕ) (q : Queue) (time line : List ℕ) →
        length pushes < greatest_count → Went pushes taken q →
        Went (record { line = time ++ line; found_room = has_room q time line } ∷ pushes) taken
        (queue_after q time line) }
    ensures taken { (pushes : List Push) (taken : List ℕ) (q : Queue) (count : ℕ) → Went pushes taken q →
        Went pushes (taken ++ take count q.bytes) (record q { bytes = drop count q.bytes }) }
{}
