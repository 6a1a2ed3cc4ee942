// Configurations whose actors have addresses, and what such actors say.

/// One node and three arbitrators.
pub(crate) const ONE: &str =
    "{\"lease\":3000,\"answer\":1000,\"drift\":10,\"grain\":1,\"nodes\":[{\"node\":1,\"point\":\"0000000000000000\",\"at\":\"n1\"}],\"arbiters\":[{\"arbiter\":1,\"at\":\"a1\"},{\"arbiter\":2,\"at\":\"a2\"},{\"arbiter\":3,\"at\":\"a3\"}],\"first\":1}";

/// The same, but nobody knows where arbitrator 3 listens.
pub(crate) const ONE_WITHOUT_A3: &str =
    "{\"lease\":3000,\"answer\":1000,\"drift\":10,\"grain\":1,\"nodes\":[{\"node\":1,\"point\":\"0000000000000000\",\"at\":\"n1\"}],\"arbiters\":[{\"arbiter\":1,\"at\":\"a1\"},{\"arbiter\":2,\"at\":\"a2\"},{\"arbiter\":3}],\"first\":1}";

/// One node and one arbitrator.
pub(crate) const SOLO: &str =
    "{\"lease\":3000,\"answer\":1000,\"drift\":10,\"grain\":1,\"nodes\":[{\"node\":1,\"point\":\"0000000000000000\",\"at\":\"n1\"}],\"arbiters\":[{\"arbiter\":1,\"at\":\"a1\"}],\"first\":1}";

/// Two nodes, half the ring apart, and three arbitrators.
pub(crate) const DUO: &str =
    "{\"lease\":3000,\"answer\":1000,\"drift\":10,\"grain\":1,\"nodes\":[{\"node\":1,\"point\":\"0000000000000000\",\"at\":\"n1\"},{\"node\":2,\"point\":\"8000000000000000\",\"at\":\"n2\"}],\"arbiters\":[{\"arbiter\":1,\"at\":\"a1\"},{\"arbiter\":2,\"at\":\"a2\"},{\"arbiter\":3,\"at\":\"a3\"}],\"first\":1}";

/// The record of a node's first start.
pub(crate) const BOOT: &[u8] = b"\x01\x00\x00\x00\x01";

/// The record of its second start.
pub(crate) const BOOT_AGAIN: &[u8] = b"\x01\x00\x00\x00\x02";

/// Partition 1 was promised epoch 0.1.
pub(crate) const PROMISED: &[u8] = b"\x06\x00\x01\x00\x00\x00\x00\x00\x00\x00\x01";

/// Its log became that of 0.1: an empty one.
pub(crate) const ADOPTED: &[u8] =
    b"\x09\x00\x01\x00\x00\x00\x00\x00\x00\x00\x01\x00\x00\x00\x00\x00";

/// Node 2 says Hello to node 1.
pub(crate) const HELLO: &[u8] =
    b"\x53\x01\x01\x00\x02\x00\x00\x00\x01\x00\x01\x00\x00\x00\x00\x00\x00\x00\x01";

/// 1.1 accuses 2.1 at arbitrator 1.
pub(crate) const ACCUSE: &[u8] =
    b"\x53\x01\x10\x00\x01\x00\x00\x00\x01\x80\x01\x00\x00\x00\x00\x00\x02\x00\x00\x00\x01";

/// What the arbitrator keeps of that.
pub(crate) const ACCUSED_BY: &[u8] = b"\x02\x00\x02\x00\x00\x00\x01\x00\x01\x00\x00\x00\x01";

/// And what it answers: granted.
pub(crate) const RULED: &[u8] =
    b"\x53\x01\x11\x80\x01\x00\x00\x00\x00\x00\x01\x00\x00\x00\x01\x00\x02\x00\x00\x00\x01\x01";
