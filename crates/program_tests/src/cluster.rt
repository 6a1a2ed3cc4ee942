use crate::schedules::{EIGHT, expect_end};
use std::test::Fail;

/// Nodes 2 to 8 join in turn, each through the holder of its point; node 5 falls silent, and node 4 takes over.
const CLUSTER: [&str; 37] = [
    "start 1 0",
    "start 2 0\ndo 2 link 1\ngive 1\ngive 2\ngive 3\ngive 4\ngive 5\ntick 100 1:100 2:100",
    "fire 2\ngive 6\ngive 7\nfire 1\ngive 8\ngive 9\nfire 1\ngive 11\nfire 2\ngive 12",
    "give 13",
    "start 3 0\ndo 3 link 2\ngive 14\ngive 15\ngive 16\ngive 17\ngive 18",
    "tick 100 1:200 2:200 3:100\nfire 3\ngive 19\ngive 20\nfire 2\ngive 21\ngive 22\ngive 23",
    "give 24\nfire 2\ngive 27\nfire 3\ngive 28\ngive 29",
    "start 4 0\ndo 4 link 3\ngive 30\ngive 31\ngive 32\ngive 33\ngive 34",
    "tick 100 1:300 2:300 3:200 4:100\nfire 4\ngive 35\ngive 36\nfire 3\ngive 37\ngive 38",
    "give 39\ngive 40\nfire 3\ngive 43\nfire 4\ngive 44\ngive 45",
    "start 5 0\ndo 5 link 4\ngive 46\ngive 47\ngive 48\ngive 49\ngive 50",
    "tick 100 1:400 2:400 3:300 4:200 5:100\nfire 5\ngive 51\ngive 52\nfire 4\ngive 53",
    "give 54\ngive 55\ngive 56\nfire 4\ngive 59\nfire 5\ngive 60\ngive 61",
    "start 6 0\ndo 6 link 1\ngive 62\ngive 63\ngive 64\ngive 65\ngive 66",
    "tick 100 1:500 2:500 3:400 4:300 5:200 6:100\nfire 6\ngive 67\ngive 68\nfire 1\ngive 69",
    "give 70\ngive 71\ngive 72\nfire 1\ngive 75\nfire 6\ngive 76\ngive 77",
    "start 7 0\ndo 7 link 6\ngive 78\ngive 79\ngive 80\ngive 81\ngive 82",
    "tick 100 1:600 2:600 3:500 4:400 5:300 6:200 7:100\nfire 7\ngive 83\ngive 84\nfire 6",
    "give 85\ngive 86\ngive 87\ngive 88\nfire 6\ngive 91\nfire 7\ngive 92\ngive 93",
    "start 8 0\ndo 8 link 1\ngive 94\ngive 95\ngive 96\ngive 97\ngive 98",
    "tick 100 1:700 2:700 3:600 4:500 5:400 6:300 7:200 8:100\nfire 8\ngive 99\ngive 100",
    "fire 1\ngive 101\ngive 102\ngive 103\ngive 104\ngive 105\ngive 106\nfire 1\ngive 110",
    "fire 8\ngive 111\ngive 112",
    "start a1\nstart a2",
    "tick 20000 1:20700 2:20700 3:20600 4:20500 5:20400 6:20300 7:20200 8:20100\nfire 1",
    "give 113\ngive 114\ngive 115\ngive 116\ngive 117\ngive 118\nfire 2\ngive 119\ngive 120",
    "give 121\ngive 122\nfire 3\ngive 123\ngive 124\ngive 125\ngive 126\nfire 4\ngive 127",
    "give 129\nfire 6\ngive 130\ngive 131\ngive 132\ngive 133\nfire 7\ngive 134\ngive 135",
    "fire 8\ngive 136\ngive 137",
    "tick 10000 1:30700 2:30700 3:30600 4:30500 5:30400 6:30300 7:30200 8:30100\nfire 4",
    "give 139\ngive 140\ngive 142\ngive 143",
    "tick 15000 1:45700 2:45700 3:45600 4:45500 5:45400 6:45300 7:45200 8:45100\nfire 1",
    "give 144\ngive 145\ngive 146\ngive 147\ngive 148\ngive 149\nfire 2\ngive 150\ngive 151",
    "give 152\ngive 153\nfire 3\ngive 154\ngive 155\ngive 156\ngive 157\nfire 4\ngive 158",
    "give 159\nfire 6\ngive 160\ngive 161\ngive 162\ngive 163\nfire 7\ngive 164\ngive 165",
    "fire 8\ngive 166\ngive 167",
    "tick 20710 1:66410 2:66410 3:66310 4:66210 5:66110 6:66010 7:65910 8:65810\nfire 4",
];

/// The last lines that are written of it: what each node holds, the take-over, and no point that nobody holds.
const HELD: [&str; 30] = [
    "191 45700 1.1 45700 sent 144-146",
    "192 45700 2.1 45700 sent 147-147",
    "193 45700 6.1 45300 sent 148-148",
    "194 45700 8.1 45100 sent 149-149",
    "197 45700 1.1 45700 own 0000000000000000-1000000000000000,f000000000000000-ffffffffffffffff 80700",
    "198 45700 2.1 45700 sent 150-151",
    "199 45700 1.1 45700 sent 152-152",
    "200 45700 3.1 45600 sent 153-153",
    "202 45700 2.1 45700 own 1000000000000001-3000000000000000 80700",
    "203 45700 3.1 45600 sent 154-155",
    "204 45700 2.1 45700 sent 156-156",
    "205 45700 4.1 45500 sent 157-157",
    "207 45700 3.1 45600 own 3000000000000001-5000000000000000 80600",
    "208 45700 4.1 45500 sent 158-158",
    "209 45700 3.1 45600 sent 159-159",
    "210 45700 4.1 45500 own 5000000000000001-7000000000000000 80500",
    "211 45700 6.1 45300 sent 160-161",
    "212 45700 1.1 45700 sent 162-162",
    "213 45700 7.1 45200 sent 163-163",
    "215 45700 6.1 45300 own 9000000000000000-b000000000000000 80300",
    "216 45700 7.1 45200 sent 164-164",
    "217 45700 6.1 45300 sent 165-165",
    "218 45700 7.1 45200 own b000000000000001-cfffffffffffffff 80200",
    "219 45700 8.1 45100 sent 166-166",
    "220 45700 1.1 45700 sent 167-167",
    "221 45700 8.1 45100 own d000000000000000-efffffffffffffff 80100",
    "223 66410 4.1 66210 tookover 5.1 7000000000000001-8fffffffffffffff",
    "223 66410 4.1 66210 own 5000000000000001-8fffffffffffffff 80500",
    "223 66410 4.1 66210 sent 168-168",
    "end 222 168",
];

#[test]
fn a_cluster_of_eight_loses_a_node(rt: HostRuntime) -> Result<(), Fail> {
    let events: [&[&str]; 2] = [&[EIGHT], &CLUSTER];
    expect_end(&rt, rt.alloc(), &events, &[&HELD])
}
