// What a seal is good for, in the words of its definitions.
ghost use Rattle.std.specs.Prelude.{◌≡◌, ◌≤◌, ◌<◌, ◌+◌, ℕ, List, Some, length};
ghost use Rattle.frame_seal.specs.Seals.{Key, opened, sealed, sender_of};

/// What is sealed for a receiver by the sender that the frame names is opened to the same frame.
#[tactic(auto, using(crate::proofs::Opening::sealed_opens))]
pub fn what_is_sealed_opens()
    ensures { (key : Key) (to : ℕ) (frame : List ℕ) →
        opened key to (sealed key (sender_of frame) to frame) ≡ Some frame }
{}

/// What is opened is the frame, sealed for this receiver by this key.
#[tactic(auto, using(crate::proofs::Opening::opened_sealed))]
pub fn what_is_opened_was_sealed()
    ensures { (key : Key) (to : ℕ) (bytes frame : List ℕ) →
        opened key to bytes ≡ Some frame → bytes ≡ sealed key (sender_of frame) to frame }
{}

/// A frame of 1,200 bytes or fewer is sealed in fewer than 1,400.
#[tactic(auto, using(crate::proofs::Opening::fits))]
pub fn seals_fit()
    ensures { (key : Key) (from to : ℕ) (frame : List ℕ) →
        length frame ≤ 1200 → length (sealed key from to frame) < 1400 }
{}
