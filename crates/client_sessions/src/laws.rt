// What comes of all that is said, in the words of the door and of the log.
ghost use Rattle.client_sessions.specs.Utterances.{EachHearsItsReplies, TheLogHasItsLines};

/// A client that is not dropped has heard the texts for it, each as a whole, in order, and nothing else.
pub fn each_hears_its_replies()
    ensures { EachHearsItsReplies }
{}

/// The log has the lines in order, but for those that are counted as lost.
pub fn the_log_has_its_lines()
    ensures { TheLogHasItsLines }
{}
