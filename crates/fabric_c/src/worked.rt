ghost use Rattle.std.specs.Prelude.{◌≡◌, ◌∷◌, [], None, Some, codes};
ghost use Rattle.fabric_c.specs.Codes.{no_room, ok};
ghost use Rattle.fabric_c.specs.Lines.{frame_line, record_line};
ghost use Rattle.fabric_c.specs.Rooms.{code_after, room_after};
ghost use Rattle.fabric_c.specs.Worked.{acknowledged_frame, acknowledged_line, claimed_line, claimed_record, five};

/// What the definitions say of a frame, of a record, and of rooms, computed: a law of the definitions.
pub fn worked_replies()
    ensures frame { frame_line acknowledged_frame ≡ Some acknowledged_line }
    ensures claim { record_line claimed_record ≡ Some claimed_line }
    ensures no_kind { record_line (0 ∷ claimed_record) ≡ None }
    ensures shorter { room_after (codes "abc") five ≡ 97 ∷ 98 ∷ 99 ∷ 9 ∷ 9 ∷ [] }
    ensures longer { room_after (codes "abcdef") five ≡ five }
    ensures fits { code_after (codes "abcde") ok five ≡ ok }
    ensures exceeds { code_after (codes "abcdef") ok five ≡ no_room }
{}
