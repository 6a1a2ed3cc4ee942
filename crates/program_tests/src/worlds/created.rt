// A partition of three replicas is created while frames are lost, late and repeated, and its primary writes.

/// Four nodes in domains of their own, a quarter of the ring apart, and three arbitrators.
pub(crate) const FOUR: &str =
    "{\"lease\":3000,\"answer\":1000,\"drift\":10,\"grain\":1,\"nodes\":[{\"node\":1,\"point\":\"0000000000000000\",\"domain\":1},{\"node\":2,\"point\":\"4000000000000000\",\"domain\":2},{\"node\":3,\"point\":\"8000000000000000\",\"domain\":3},{\"node\":4,\"point\":\"c000000000000000\",\"domain\":4}],\"arbiters\":[{\"arbiter\":1},{\"arbiter\":2},{\"arbiter\":3}],\"first\":1}";

/// Lines 2 to 61. Node 1 has heard the others, and creates partition 1 on nodes 1 to 3. A firing asks two arbitrators
/// again. One answer comes twice, and one comes late. Node 3 gets its role before it has the log. Node 2 misses the
/// first entry, which a firing sends again.
pub(crate) const CREATED: [&str; 24] = [
    "start a1",
    "start a2",
    "start a3",
    "start 1 0",
    "start 2 0",
    "start 3 0",
    "start 4 0",
    "do 2 join 1",
    "do 3 join 1",
    "do 4 join 1\ngive 1\ngive 2\ngive 3",
    "do 2 create 1 3",
    "do 1 create 1 3",
    "do 1 create 1 3\ngive 7\ngive 10",
    "fire 1\ngive 11\ngive 10\ngive 13\ngive 9\ngive 17\ngive 14\ngive 16\ngive 18\ngive 19\ngive 20",
    "give 21\ngive 23\ngive 24\ngive 25\ngive 27\ngive 28\ngive 29\ngive 32\ngive 30\ngive 31\ngive 33",
    "give 34",
    "do 1 create 1 3",
    "do 1 units 0000000000000000-0001000000000000",
    "do 1 units 0001000000000001-ffffffffffffffff",
    "do 2 write 1 x",
    "do 1 write 1 set a 1",
    "do 1 write 1 set b 2\ngive 37\ngive 39",
    "fire 1\ngive 41\ngive 22\ngive 42\ngive 40\ngive 43\ngive 35\ngive 44",
    "fire 1\ngive 45\ngive 47",
];

/// The report lines of these.
pub(crate) const OF_CREATED: [&str; 14] = [
    "5 0 1.1 0 own 0000000000000000-ffffffffffffffff -\n6 0 2.1 0 own - -\n7 0 3.1 0 own - -",
    "8 0 4.1 0 own - -\n9 0 2.1 0 sent 1-1\n10 0 3.1 0 sent 2-2\n11 0 4.1 0 sent 3-3\n12 0 1.1 0 sent 4-4",
    "13 0 1.1 0 sent 5-5\n14 0 1.1 0 sent 6-6\n15 0 2.1 0 refused create notmanager\n16 0 1.1 0 sent 7-9",
    "17 0 1.1 0 refused create busy\n18 0 a1 - sent 10-10\n20 0 1.1 0 sent 11-12\n21 0 a2 - sent 13-13",
    "23 0 1.1 0 sent 14-16\n24 0 a3 - sent 17-17\n26 0 a1 - sent 18-18\n27 0 a3 - sent 19-19",
    "29 0 1.1 0 sent 20-22\n30 0 1.1 0 promised 1 0.1\n30 0 1.1 0 sent 23-23\n31 0 2.1 0 promised 1 0.1",
    "31 0 2.1 0 sent 24-24\n33 0 1.1 0 sent 25-27\n34 0 a1 - sent 28-28\n35 0 a3 - sent 29-29",
    "37 0 1.1 0 sent 30-32\n39 0 1.1 0 primary 1 0.1\n39 0 1.1 0 sent 33-33\n40 0 2.1 0 sent 34-34",
    "42 0 1.1 0 configured 1 0.1\n43 0 1.1 0 refused create exists\n44 0 1.1 0 units 1",
    "45 0 1.1 0 units -\n46 0 2.1 0 refused write notprimary\n47 0 1.1 0 accepted 1 0.1 1",
    "47 0 1.1 0 sent 35-36\n48 0 1.1 0 accepted 1 0.1 2\n48 0 1.1 0 sent 37-38\n49 0 2.1 0 sent 39-39",
    "51 0 1.1 0 sent 40-41\n53 0 3.1 0 promised 1 0.1\n53 0 3.1 0 sent 42-42\n55 0 2.1 0 accepted 1 0.1 1",
    "55 0 2.1 0 sent 43-43\n56 0 1.1 0 committed 1 0.1 1\n57 0 2.1 0 sent 44-44\n59 0 1.1 0 sent 45-46",
    "60 0 2.1 0 accepted 1 0.1 2\n60 0 2.1 0 sent 47-47\n61 0 1.1 0 committed 1 0.1 2",
];
