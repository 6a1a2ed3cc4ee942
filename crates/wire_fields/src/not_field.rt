/// No such field stands there.
#[derive(Clone, Copy, Debug, PartialEq, Eq)]
pub struct NotField;
