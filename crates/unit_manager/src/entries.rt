ghost use Rattle.std.specs.Prelude.{◌≡◌, ◌≤◌, ◌<◌, ◌==◌, true, length, is_some, nat_lt, IfSome, IfNone, None, vec_len};
ghost use Rattle.std.specs.Prelude.{vec_capacity};
ghost use Rattle.std.specs.List.{position_from, position_or_len};
ghost use Rattle.fabric_lemmas.specs.Maps.{at, put, rises, without};
ghost use Rattle.reconfig_phases.specs.Views.{reconfig_of};
ghost use Rattle.unit_manager.specs.Managers.{place, reconfigs_of};

use reconfig_phases::Reconfig;

fn position_of(reconfigs: &[(u16, Reconfig)], partition: u16) -> Option<usize>
    ensures found { result ≡ position_from (λ e. e.0 == partition) 0 reconfigs.now }
    ensures inside { IfSome result (λ i. i < length reconfigs.now) }
{
    reconfigs
        .iter()
        .position(|reconfig| reconfig.0 == partition)
}

/// The place of the partition's reconfiguration, if there is one.
#[tactic(auto, using(reconfig_phases::proofs::Polled::found, crate::proofs::Places::none_seen, crate::proofs::Places::some_seen))]
pub(crate) fn find(reconfigs: &[(u16, Reconfig)], partition: u16) -> Option<usize>
    ensures place { IfSome result (λ i. i ≡ place partition reconfigs.now) }
    ensures inside { IfSome result (λ i. i < length reconfigs.now) }
    ensures none { IfNone result (at partition (reconfigs_of reconfigs.now) ≡ None) }
    ensures stands { is_some result ≡ is_some (at partition (reconfigs_of reconfigs.now)) }
{
    match position_of(reconfigs, partition) {
        Some(i) => Some(i),
        None => None,
    }
}

fn first_above(reconfigs: &[(u16, Reconfig)], partition: u16) -> Option<usize>
    ensures first { result ≡ position_from (λ e. nat_lt partition e.0) 0 reconfigs.now }
    ensures inside { IfSome result (λ i. i < length reconfigs.now) }
{
    reconfigs.iter().position(|reconfig| partition < reconfig.0)
}

/// The place of the first entry that is above the partition.
#[tactic(auto, using(reconfig_phases::proofs::Polled::found, reconfig_phases::proofs::Polled::missing))]
fn place_above(reconfigs: &[(u16, Reconfig)], partition: u16) -> usize
    ensures inside { result ≤ length reconfigs.now }
    ensures first { result ≡ position_or_len (λ e. nat_lt partition e.0) reconfigs.now }
{
    match first_above(reconfigs, partition) {
        Some(i) => i,
        None => reconfigs.len(),
    }
}

/// Puts a partition's reconfiguration in its place. There is room for it, and the partition has none yet.
pub(crate) fn enter(reconfigs: &mut Vec<(u16, Reconfig)>, partition: u16, reconfig: Reconfig)
    requires room { vec_len reconfigs.old < vec_capacity reconfigs.old }
    requires new { at partition (reconfigs_of reconfigs.old.items) ≡ None }
    ensures { reconfigs_of reconfigs.new.items ≡
        put partition (reconfig_of reconfig) (reconfigs_of reconfigs.old.items) }
{
    let i = place_above(reconfigs, partition);
    match reconfigs.insert(i, (partition, reconfig)) {
        Ok(()) => {}
        Err(_) => unreachable!(),
    }
}

/// Takes a partition's reconfiguration out.
pub(crate) fn take_out(reconfigs: &mut Vec<(u16, Reconfig)>, i: usize, partition: u16)
    requires rise { rises (reconfigs_of reconfigs.old.items) ≡ true }
    requires place { i ≡ place partition reconfigs.old.items }
    requires inside { i < length reconfigs.old.items }
    ensures { reconfigs_of reconfigs.new.items ≡ without partition (reconfigs_of reconfigs.old.items) }
{
    reconfigs.remove(i);
}
