ghost use Rattle.open_answers.specs.Answers.{EndsOrStays};

/// Each open answer ends by a cause or stays open, and none does both.
pub fn each_answer_ends_or_stays()
    ensures { EndsOrStays }
{}
