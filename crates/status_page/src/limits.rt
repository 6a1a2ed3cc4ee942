/// How many fields the head of a request has.
pub const MAX_FIELDS: usize = 32;
