ghost use Rattle.std.specs.Prelude.{◌≡◌, ◌∷◌, Err, []};
ghost use Rattle.again_choice.specs.declared.folder.Found.TheVariants.{Running as IsRunning, Unreadable};
ghost use Rattle.again_choice.specs.declared.refusal.AgainRefusal.TheVariants as refusal;
ghost use Rattle.again_choice.specs.Worked.{answer, arbiter_folder, checksum, chosen, done, entry, equals};
ghost use Rattle.again_choice.specs.Worked.{folder_of, node_folder};

/// What the definition says of folders that lead to a choice, computed: a law of the definition.
#[tactic(auto, unfolding(crate::specs::Folders::fault_of))]
pub fn worked_choices()
    ensures epoch { answer (node_folder 1 4 3 (entry ∷ []) ∷ node_folder 2 6 5 [] ∷ arbiter_folder [] ∷ [])
        ≡ chosen [] 2 7 }
    ensures entries { answer (node_folder 1 4 3 [] ∷ node_folder 2 6 3 (entry ∷ []) ∷ arbiter_folder [] ∷ [])
        ≡ chosen [] 2 7 }
    ensures number { answer (equals (arbiter_folder [])) ≡ chosen [] 1 5 }
    ensures unbegun { answer (node_folder 1 4 3 [] ∷ node_folder 2 0 5 [] ∷ arbiter_folder [] ∷ []) ≡ chosen [] 1 5 }
    ensures spent { answer (node_folder 1 4 3 [] ∷ node_folder 2 4294967295 5 [] ∷ arbiter_folder [] ∷ [])
        ≡ chosen [] 1 5 }
    ensures partitions { answer (equals (arbiter_folder
        (done 7 3 (1 ∷ 2 ∷ []) ∷ done 7 5 (1 ∷ []) ∷ done 7 4 [] ∷ done 2 1 (2 ∷ 1 ∷ []) ∷ [])))
        ≡ chosen (record { partition = 2; replicas = 2 } ∷ record { partition = 7; replicas = 1 } ∷ []) 1 5 }
{}

/// What it says of folders that are refused.
#[tactic(auto, unfolding(crate::specs::Folders::fault_of))]
pub fn worked_refusals()
    ensures running { answer (node_folder 1 4 3 [] ∷ IsRunning ∷ Unreadable ∷ []) ≡ Err (refusal.Running 1) }
    ensures read { answer (Unreadable ∷ IsRunning ∷ []) ≡ Err (refusal.Read 0) }
    ensures other { answer (folder_of 1 [] 4 [] [] ∷ node_folder 2 4 3 [] ∷ arbiter_folder [] ∷ [])
        ≡ Err (refusal.Other 0) }
    ensures unknown { answer (node_folder 3 4 3 [] ∷ []) ≡ Err (refusal.Other 0) }
    ensures twice { answer (node_folder 1 4 3 [] ∷ arbiter_folder [] ∷ node_folder 1 5 3 [] ∷ [])
        ≡ Err (refusal.Twice 2) }
    ensures node { answer (node_folder 1 4 3 [] ∷ []) ≡ Err (refusal.MissingNode 2) }
    ensures arbiter { answer (node_folder 1 4 3 [] ∷ node_folder 2 4 3 [] ∷ []) ≡ Err (refusal.MissingArbiter 1) }
    ensures no_node { answer (node_folder 1 0 3 [] ∷ node_folder 2 0 3 [] ∷ arbiter_folder [] ∷ [])
        ≡ Err refusal.NoNode }
{}
