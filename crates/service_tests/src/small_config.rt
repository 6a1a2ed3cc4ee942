//! A small configuration, which the tests of the service have in common.
use fabric_config::{FabricConfig, read_config};
use std::alloc::Global;
use std::process::Abort;

/// Two nodes and two arbitrators. Addresses have no part in the checksum.
const SMALL: &[u8] =
    b"{\"lease\":3000,\"answer\":1000,\"drift\":10,\"grain\":1,\"near\":2,\"rounds\":3,\"first\":7,\
\"nodes\":[{\"node\":7,\"point\":\"0000000000000000\",\"at\":\"127.0.0.1:4600\"},\
{\"node\":12,\"point\":\"8000000000000abc\",\"domain\":5,\"longest\":60000,\"at\":\"[::1]:4600\"}],\
\"arbiters\":[{\"arbiter\":1,\"at\":\"127.0.0.1:4700\"},{\"arbiter\":2}]}";

pub fn small_config(rt: &impl Abort, alloc: Global) -> FabricConfig {
    read_config(alloc, SMALL).expect(rt, "a configuration")
}
