// Whether records stand in their places.

ghost use Rattle.std.specs.Prelude.{◌≡◌};
ghost use Rattle.keep_log.specs.Places.{is_promise, is_write, is_adopting, is_piece, is_whole, is_adoption};

use replica_core::Replica;
use ring_points::Epoch;

/// Whether a promise of this epoch can be the replica's next.
pub fn is_promise(replica: &Replica, epoch: Epoch) -> bool
    ensures { result ≡ is_promise epoch replica.now }
{
    replica.promised() < epoch
}

/// Whether a write of this epoch and number can be the replica's next.
pub fn is_write(replica: &Replica, epoch: Epoch, lsn: u32) -> bool
    ensures { result ≡ is_write epoch lsn replica.now }
{
    replica.at() == epoch && epoch >= replica.promised() && lsn as usize == replica.log().len() + 1
}

fn is_adopting(replica: &Replica, epoch: Epoch) -> bool
    ensures { result ≡ is_adopting epoch replica.now }
{
    replica.promised() == epoch && replica.at() != epoch
}

/// Whether an incoming entry of this number can be the replica's next.
pub fn is_piece(replica: &Replica, epoch: Epoch, lsn: u32) -> bool
    ensures { result ≡ is_piece epoch lsn replica.now }
{
    is_adopting(replica, epoch) && (lsn == 1 || lsn == replica.collected() + 1)
}

fn is_whole(replica: &Replica, last: u32, own: bool) -> bool
    ensures { result ≡ is_whole last own replica.now }
{
    if own {
        last > 0 && last as usize == replica.log().len()
    } else {
        last == 0 || last == replica.collected()
    }
}

/// Whether the replica can adopt a log for the epoch: its own one, or the collected one.
pub fn is_adoption(replica: &Replica, epoch: Epoch, last: u32, own: bool) -> bool
    ensures { result ≡ is_adoption epoch last own replica.now }
{
    is_adopting(replica, epoch) && is_whole(replica, last, own)
}
