ghost use Rattle.std.specs.Prelude.{◌≡◌, ◌∷◌, [], Err, None, Ok, Some, codes, false, true};
ghost use Rattle.again_choice.specs.declared.refusal.AgainRefusal.TheVariants as refusal;
ghost use Rattle.serve_top.specs.Agains.{again_words};
ghost use Rattle.serve_top.specs.Beginnings.{judged};
ghost use Rattle.serve_top.specs.Founds.{is_whole};
ghost use Rattle.serve_top.specs.declared.beginning.Begins.TheVariants as begins;
ghost use Rattle.serve_top.specs.declared.end.End.TheVariants as end;
ghost use Rattle.serve_top.specs.declared.end.FolderFault.TheVariants.{Emptied};
ghost use Rattle.service_file.specs.Beginnings.{begins_by};
ghost use Rattle.service_file.specs.Worked.{allowed, begun_file};
ghost use Rattle.service_file.specs.declared.field.ServiceField.TheVariants.{Instance};

/// What is said of folders that lead to no line, computed: a law of the definition.
pub fn worked_again_words()
    ensures folder { again_words (refusal.Read 1) (codes "a" ∷ codes "b c" ∷ []) ≡ codes "read b c" }
    ensures control { again_words (refusal.Twice 0) ((98 ∷ 10 ∷ []) ∷ []) ≡ codes "twice -" }
    ensures empty { again_words (refusal.Other 0) ([] ∷ []) ≡ codes "other -" }
    ensures none { again_words refusal.NoNode [] ≡ codes "none -" }
{}

/// How node 1 begins whose instance 5 was allowed to begin with the whole ring, computed.
#[tactic(auto, unfolding(service_file::specs::Beginnings::begins_by))]
pub fn worked_starts()
    ensures noted { judged (begins_by begun_file (Some 6) (allowed 7)) (allowed 7)
        ≡ Ok (begins.NoteAnew (record { node = 1; instance = 7 })) }
    ensures anew { judged (begins_by begun_file (Some 4) (allowed 5)) (allowed 5) ≡ Ok begins.Anew }
    ensures passed { judged (begins_by begun_file (Some 5) (allowed 5)) (allowed 5) ≡ Ok begins.Passed }
    ensures usual { judged (begins_by begun_file (Some 5) None) None ≡ Ok begins.Usual }
    ensures emptied { judged (begins_by begun_file (Some 3) (allowed 5)) (allowed 5) ≡ Err (end.Folder Emptied) }
    ensures wrong { judged (begins_by begun_file (Some 3) (allowed 7)) (allowed 7) ≡ Err (end.Service Instance) }
{}

/// Whether its records are whole, by its last instance, computed.
#[tactic(auto, unfolding(service_file::specs::Beginnings::begins_by))]
pub fn worked_folders()
    ensures whole { is_whole begun_file (record { boots = 4; arbiter = []; replicas = [] }) ≡ true }
    ensures older { is_whole begun_file (record { boots = 3; arbiter = []; replicas = [] }) ≡ false }
    ensures emptied { is_whole begun_file (record { boots = 0; arbiter = []; replicas = [] }) ≡ false }
{}
