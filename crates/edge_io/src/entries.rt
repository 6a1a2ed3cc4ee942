ghost use Rattle.std.specs.Prelude.{◌≡◌, ◌==◌, position};

/// Where the first entry of the actor stands.
pub fn place_of<T>(entries: &[(u16, T)], actor: u16) -> Option<usize>
    ensures { result ≡ position (λ e. e.0 == actor) entries.now }
{
    entries.iter().position(|entry| entry.0 == actor)
}
