ghost use Rattle.std.specs.Prelude.{◌≡◌, ◌∷◌, [], Some, None, codes};
ghost use Rattle.serve_words.specs.Forms.{again, arbiter, ask, check, form_of, help, node, version};

/// What the definition says of some words, computed: a law of the definition.
pub fn worked_words()
    ensures node { form_of (codes "node" ∷ codes "999" ∷ codes "f" ∷ []) ≡ Some (node 999 (codes "f")
        (record { folder = None; listen = None; page = None; key = None }) None) }
    ensures both_spellings { form_of (codes "node" ∷ codes "1" ∷ codes "f" ∷ codes "--hold" ∷ codes "40" ∷ codes "--parent" ∷ codes "--folder=a=b" ∷ codes "--key" ∷ codes "k" ∷ [])
        ≡ Some (node 1 (codes "f") (record { folder = Some (codes "a=b"); listen = None; page = None; key = Some (codes "k") }) (Some (record { hold = Some 40 }))) }
    ensures a_hyphen { form_of (codes "arbiter" ∷ codes "9" ∷ codes "f" ∷ codes "--page=-" ∷ codes "--listen=" ∷ [])
        ≡ Some (arbiter 9 (codes "f") (record { folder = None; listen = Some (codes ""); page = Some (codes "-"); key = None })) }
    ensures check { form_of (codes "check" ∷ codes "f" ∷ []) ≡ Some (check (codes "f")) }
    ensures ask { form_of (codes "ask" ∷ codes "d" ∷ codes "state" ∷ codes "-" ∷ []) ≡ Some (ask (codes "d") (codes "state" ∷ codes "-" ∷ [])) }
    ensures again { form_of (codes "again" ∷ codes "f" ∷ codes "d" ∷ codes "e" ∷ []) ≡ Some (again (codes "f") (codes "d" ∷ codes "e" ∷ [])) }
    ensures help { form_of (codes "--help" ∷ []) ≡ Some help }
    ensures version { form_of (codes "--version" ∷ []) ≡ Some version }
    ensures no_words { form_of [] ≡ None }
    ensures help_of_more { form_of (codes "--help" ∷ codes "node" ∷ []) ≡ None }
    ensures no_file { form_of (codes "node" ∷ codes "1" ∷ []) ≡ None }
    ensures no_line { form_of (codes "ask" ∷ codes "d" ∷ []) ≡ None }
    ensures no_folder { form_of (codes "again" ∷ codes "f" ∷ []) ≡ None }
    ensures a_folder_is_an_option { form_of (codes "again" ∷ codes "f" ∷ codes "d" ∷ codes "--folder=e" ∷ []) ≡ None }
    ensures a_file_is_an_option { form_of (codes "again" ∷ codes "-f" ∷ codes "d" ∷ []) ≡ None }
    ensures two_lines { form_of (codes "ask" ∷ codes "d" ∷ (101 ∷ 10 ∷ 101 ∷ []) ∷ []) ≡ None }
    ensures node_1000 { form_of (codes "node" ∷ codes "1000" ∷ codes "f" ∷ []) ≡ None }
    ensures leading_zero { form_of (codes "node" ∷ codes "01" ∷ codes "f" ∷ []) ≡ None }
    ensures arbiter_10 { form_of (codes "arbiter" ∷ codes "10" ∷ codes "f" ∷ []) ≡ None }
    ensures before_file { form_of (codes "node" ∷ codes "1" ∷ codes "--parent" ∷ codes "f" ∷ []) ≡ None }
    ensures twice { form_of (codes "node" ∷ codes "1" ∷ codes "f" ∷ codes "--key" ∷ codes "k" ∷ codes "--key=k" ∷ []) ≡ None }
    ensures parent_twice { form_of (codes "node" ∷ codes "1" ∷ codes "f" ∷ codes "--parent" ∷ codes "--parent" ∷ []) ≡ None }
    ensures no_value { form_of (codes "node" ∷ codes "1" ∷ codes "f" ∷ codes "--folder" ∷ codes "--parent" ∷ []) ≡ None }
    ensures last_value { form_of (codes "node" ∷ codes "1" ∷ codes "f" ∷ codes "--folder" ∷ []) ≡ None }
    ensures a_flag_has_none { form_of (codes "node" ∷ codes "1" ∷ codes "f" ∷ codes "--parent=1" ∷ []) ≡ None }
    ensures hold_alone { form_of (codes "node" ∷ codes "1" ∷ codes "f" ∷ codes "--hold" ∷ codes "40" ∷ []) ≡ None }
    ensures hold_0 { form_of (codes "node" ∷ codes "1" ∷ codes "f" ∷ codes "--parent" ∷ codes "--hold" ∷ codes "0" ∷ []) ≡ None }
    ensures a_parent_of_an_arbitrator { form_of (codes "arbiter" ∷ codes "1" ∷ codes "f" ∷ codes "--parent" ∷ []) ≡ None }
    ensures an_unknown_option { form_of (codes "node" ∷ codes "1" ∷ codes "f" ∷ codes "--folders" ∷ codes "d" ∷ []) ≡ None }
    ensures a_further_word { form_of (codes "arbiter" ∷ codes "1" ∷ codes "f" ∷ codes "g" ∷ []) ≡ None }
{}
