// A reconfiguration that the primary does not hear, its write in the old epoch, and its return as a secondary.

/// Lines 62 to 123. Nodes 2 and 3 promise the next epoch. Node 4 copies the log from node 2: one entry comes twice,
/// and one out of order. Node 2 becomes the primary. The deposed node 1 writes an entry that nobody takes. Then it
/// copies the log of node 2, which drops that entry.
pub(crate) const DEPOSED: [&str; 12] = [
    "do 1 write 1 set c 3\ngive 48\ngive 50",
    "do 1 heal 1 3\ngive 51\ngive 52\ngive 54\ngive 55\ngive 57\ngive 58\ngive 59\ngive 60\ngive 61",
    "give 62\ngive 64\ngive 65\ngive 67\ngive 68\ngive 70\ngive 71\ngive 72\ngive 73\ngive 74\ngive 71",
    "give 75\ngive 73\ngive 75\ngive 69\ngive 78\ngive 79\ngive 80\ngive 82\ngive 83\ngive 85\ngive 86",
    "give 87\ngive 88",
    "do 1 write 1 set d 0\ngive 89\ngive 90\ngive 91\ngive 92",
    "do 2 write 1 set d 4\ngive 94\ngive 93\ngive 95\ngive 66\ngive 96\ngive 97\ngive 98\ngive 99",
    "give 100\ngive 101\ngive 102",
    "do 1 write 1 x",
    "fire 2\ngive 104\ngive 105",
    "do 2 names 1 0000000000000000-ffffffffffffffff",
    "do 2 resolve 1 d\ngive 20\ngive 106",
];

/// The report lines of these.
pub(crate) const OF_DEPOSED: [&str; 18] = [
    "62 0 1.1 0 accepted 1 0.1 3\n62 0 1.1 0 sent 48-49\n63 0 2.1 0 accepted 1 0.1 3",
    "63 0 2.1 0 sent 50-50\n64 0 1.1 0 committed 1 0.1 3\n65 0 1.1 0 sent 51-53\n66 0 a1 - sent 54-54",
    "67 0 a2 - sent 55-55\n69 0 1.1 0 sent 56-58\n70 0 2.1 0 promised 1 0.2\n70 0 2.1 0 sent 59-59",
    "71 0 3.1 0 promised 1 0.2\n71 0 3.1 0 sent 60-60\n73 0 1.1 0 sent 61-63\n74 0 a1 - sent 64-64",
    "75 0 a2 - sent 65-65\n77 0 1.1 0 sent 66-68\n78 0 2.1 0 adopted 1 0.2 3\n78 0 2.1 0 sent 69-69",
    "79 0 4.1 0 promised 1 0.2\n79 0 4.1 0 sent 70-70\n80 0 2.1 0 sent 71-71\n81 0 4.1 0 sent 72-72",
    "82 0 2.1 0 sent 73-73\n83 0 4.1 0 sent 74-74\n84 0 2.1 0 sent 75-75\n85 0 4.1 0 sent 76-76",
    "87 0 4.1 0 sent 77-77\n88 0 4.1 0 adopted 1 0.2 3\n88 0 4.1 0 sent 78-78\n90 0 1.1 0 sent 79-81",
    "91 0 a1 - sent 82-82\n92 0 a2 - sent 83-83\n94 0 1.1 0 sent 84-86\n95 0 2.1 0 primary 1 0.2",
    "95 0 2.1 0 sent 87-87\n96 0 4.1 0 sent 88-88\n98 0 1.1 0 configured 1 0.2",
    "99 0 1.1 0 accepted 1 0.1 4\n99 0 1.1 0 sent 89-90\n100 0 2.1 0 sent 91-91\n101 0 3.1 0 sent 92-92",
    "104 0 2.1 0 accepted 1 0.2 4\n104 0 2.1 0 sent 93-94\n105 0 4.1 0 accepted 1 0.2 4",
    "105 0 4.1 0 sent 95-95\n107 0 2.1 0 committed 1 0.2 4\n108 0 1.1 0 promised 1 0.2",
    "108 0 1.1 0 sent 96-96\n109 0 2.1 0 sent 97-97\n110 0 1.1 0 sent 98-98\n111 0 2.1 0 sent 99-99",
    "112 0 1.1 0 sent 100-100\n113 0 2.1 0 sent 101-101\n114 0 1.1 0 adopted 1 0.2 3",
    "114 0 1.1 0 sent 102-102\n116 0 1.1 0 refused write notprimary\n117 0 2.1 0 sent 103-104",
    "118 0 1.1 0 accepted 1 0.2 4\n118 0 1.1 0 sent 105-105\n120 0 2.1 0 names 1 d,a,c,b",
    "121 0 2.1 0 resolved 1 d 4\n122 0 1.1 0 sent 106-106\nend 122 106",
];
