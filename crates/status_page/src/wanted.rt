/// What a client of the page wants, by as much of its head as has come.
#[derive(Clone, Copy, Debug, PartialEq, Eq)]
pub enum Wanted {
    /// No head has come yet, and more bytes can make one.
    More,
    /// No head within the limits of the page begins with these bytes.
    Bad,
    /// The method is not GET.
    OtherMethod,
    /// The path is none of the page.
    OtherPath,
    /// `/metrics`: the numbers of the process.
    Metrics,
    /// `/state`: the state of the actor.
    State,
    /// `/healthz`: whether the actor does its part.
    Health,
}
