ghost use Rattle.std.specs.Prelude.{◌≡◌, ◌∷◌, [], Some, None, codes};
ghost use Rattle.fabric_top.specs.Forms.{form_of};

use crate::form::Form;

/// What the definition says of some words, computed: a law of the definition.
pub fn worked_words()
    ensures replay { form_of (codes "replay" ∷ []) ≡ Some Form.Replay }
    ensures node { form_of (codes "node" ∷ codes "999" ∷ codes "1000000000" ∷ []) ≡ Some (Form.Node 999 1000000000) }
    ensures arbiter { form_of (codes "arbiter" ∷ codes "9" ∷ codes "1" ∷ []) ≡ Some (Form.Arbiter 9 1) }
    ensures cluster { form_of (codes "cluster" ∷ codes "2" ∷ []) ≡ Some (Form.Cluster 2) }
    ensures generate { form_of (codes "generate" ∷ codes "18446744073709551615" ∷ codes "16" ∷ codes "10000" ∷ [])
        ≡ Some (Form.Generate 18446744073709551615 16 10000) }
    ensures no_words { form_of [] ≡ None }
    ensures replay_of_more { form_of (codes "replay" ∷ codes "1" ∷ []) ≡ None }
    ensures node_0 { form_of (codes "node" ∷ codes "0" ∷ codes "1" ∷ []) ≡ None }
    ensures node_1000 { form_of (codes "node" ∷ codes "1000" ∷ codes "1" ∷ []) ≡ None }
    ensures leading_zero { form_of (codes "node" ∷ codes "01" ∷ codes "1" ∷ []) ≡ None }
    ensures signed { form_of (codes "cluster" ∷ codes "+1" ∷ []) ≡ None }
    ensures no_turns { form_of (codes "cluster" ∷ codes "0" ∷ []) ≡ None }
    ensures arbiter_10 { form_of (codes "arbiter" ∷ codes "10" ∷ codes "1" ∷ []) ≡ None }
    ensures seed_too_large { form_of (codes "drill" ∷ codes "18446744073709551616" ∷ codes "1" ∷ codes "1" ∷ [])
        ≡ None }
    ensures help { form_of (codes "--help" ∷ []) ≡ None }
{}
