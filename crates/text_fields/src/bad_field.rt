/// The bytes are no field of this kind.
#[derive(Clone, Copy, Debug, PartialEq, Eq)]
pub struct BadField;
