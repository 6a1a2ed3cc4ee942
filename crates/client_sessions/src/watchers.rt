ghost use Rattle.std.specs.Prelude.{◌≡◌, ◌≤◌, count_by, not, vec_capacity, vec_len};
ghost use Rattle.client_sessions.specs.Watching.{by_others, has_place, is_by, watched};

/// The most clients that watch.
pub const MAX_WATCHERS: usize = 64;

/// A client that watches: it hears every report that the log has, or every report.
#[derive(Clone, Copy, Debug, PartialEq, Eq)]
pub struct Watcher {
    pub client: u32,
    pub all: bool,
}

/// How many other clients watch.
fn count_others(watchers: &[Watcher], client: u32) -> usize
    ensures { result ≡ count_by (λ w. not (is_by client w)) watchers.now }
{
    watchers.iter().filter(|w| w.client != client).count()
}

/// Whether fewer other clients watch than may.
fn has_place(watchers: &[Watcher], client: u32) -> bool
    ensures { result ≡ has_place watchers.now client }
{
    count_others(watchers, client) < MAX_WATCHERS
}

/// Keeps those of other clients.
pub fn keep_others(watchers: &mut Vec<Watcher>, client: u32)
    ensures kept { watchers.new.items ≡ by_others client watchers.old.items }
    ensures few { vec_len watchers.new ≤ vec_len watchers.old }
    ensures room { vec_capacity watchers.new ≡ vec_capacity watchers.old }
{
    watchers.retain(|w| w.client != client);
}

/// A client begins to watch, or changes what it hears. Where as many others watch as may, nothing changes.
pub fn add_watcher(watchers: &mut Vec<Watcher>, watcher: Watcher) -> bool
    requires few { vec_len watchers.old ≤ MAX_WATCHERS }
    requires room { MAX_WATCHERS ≤ vec_capacity watchers.old }
    ensures has_place { result ≡ has_place watchers.old.items watcher.client }
    ensures watched { watchers.new.items ≡ watched watchers.old.items watcher }
    ensures few { vec_len watchers.new ≤ MAX_WATCHERS }
    ensures room { vec_capacity watchers.new ≡ vec_capacity watchers.old }
{
    if !has_place(watchers.as_slice(), watcher.client) {
        return false;
    }
    keep_others(watchers, watcher.client);
    watchers.push_reserved(watcher);
    true
}
