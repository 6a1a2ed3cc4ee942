ghost use Rattle.keep_log.specs.Laws.{AllDecided, FrontsAreGood, InPlaceIsTaken, OneSpelling};

/// No two records have one spelling. With `encode_record` and `read_records`: a record has one spelling, and a spelling
/// one record.
pub fn a_spelling_is_of_one_record()
    ensures { OneSpelling }
{}

/// Every front of a good list of records is a good list.
pub fn every_front_of_a_good_list_is_good()
    ensures { FrontsAreGood }
{}

/// A good list amounts to one thing, and is bad after none of its records.
pub fn a_list_amounts_to_one_thing()
    ensures { AllDecided }
{}

/// A record of a replica in its place is one that the replica's call takes: so what a list of records amounts to is
/// what the calls made that they were kept for.
pub fn a_record_in_its_place_is_taken()
    ensures { InPlaceIsTaken }
{}
