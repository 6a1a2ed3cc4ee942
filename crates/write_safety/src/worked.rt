ghost use Rattle.std.specs.Prelude.{◌≡◌, ◌∷◌, [], codes};
ghost use Rattle.write_safety.specs.Books.{entries_of};
ghost use Rattle.write_safety.specs.Greatest.{longest};
ghost use Rattle.write_safety.specs.Lines.{kept_lines};
ghost use Rattle.write_safety.specs.Worked.{again, four_commits, hello, two_logs};

/// What the definitions say of a worked book, computed: a law of the definitions.
pub fn worked_book()
    ensures lines { kept_lines two_logs ≡ codes
        "kept 1 0 1 0.1 68656c6c6f\nkept 1 1 1 0.1 68656c6c6f\nkept 1 1 2 1.1 616761696e\n" }
    ensures kept { entries_of 1 1 two_logs ≡ hello ∷ again ∷ [] }
    ensures none { entries_of 2 0 two_logs ≡ [] }
    ensures longest { longest four_commits ≡ hello ∷ again ∷ [] }
{}
