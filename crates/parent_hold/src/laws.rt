// What the numbers of a step are, in the words of what it gives up.
ghost use Rattle.parent_hold.specs.Laws.{EachLossHasItsNumber};

/// Each loss of a step opens the next number, in their order, and nothing else opens one.
pub fn each_loss_has_its_number()
    ensures { EachLossHasItsNumber }
{}
