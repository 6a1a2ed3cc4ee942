ghost use Rattle.std.specs.Prelude.{◌≡◌, ℕ, Bool};

use ring_points::Point;

/// The questions of clients that are still open.
pub trait Asking {
    /// Whether a client asks which node holds a point.
    ghost asked: { Self → ℕ → Bool };

    /// Whether a client asks which node holds the point.
    fn is_asked(&self, point: Point) -> bool
        ensures { result ≡ asked self.now point.0 };
}
