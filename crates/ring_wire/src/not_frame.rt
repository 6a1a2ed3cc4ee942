use wire_fields::NotField;

/// The bytes are no frame.
#[derive(Clone, Copy, Debug, PartialEq, Eq)]
pub struct NotFrame;

impl From<NotField> for NotFrame {
    ghost from_gives = { λ _ _. ⊤ };

    ghost use Rattle.std.specs.Prelude.{⊤};

    fn from(_refused: NotField) -> NotFrame {
        NotFrame
    }
}
