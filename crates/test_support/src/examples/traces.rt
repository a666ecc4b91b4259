//! Traces of schedules. `tools/texts` writes this file from `examples/`.

/// The text of `acknowledged.trace`.
pub const ACKNOWLEDGED: &str = "\
1 turn 1\n2 turn 1\n  sent 0 ReadReq 1 0 1\n3 deliver 0 0\n  sent 1 ReadRep 0 1 1\n4 deliver 1 1\n5 \
turn 1\n  1 load 8 256 = value 0\n6 turn 1\n7 pulse 1 0\n  sent 2 ReadReq 1 0 1\n8 deliver 2 0\n9 pu\
lse 0 1\n  sent 3 Ack 0 1 0\n10 deliver 3 1\n11 pulse 1 0\n12 pulse 0 1\nnode 1: 0\nnode 0 ended\nno\
de 1 ended\n";

/// The text of `chase.trace`.
pub const CHASE: &str = "\
1 turn 0\n2 turn 1\n3 turn 2\n4 turn 2\n5 turn 3\n6 turn 1\n  sent 0 ReadReq 1 0 1\n7 turn 2\n  sent \
1 WriteReq 2 0 1\n8 turn 3\n  sent 2 ReadReq 3 0 1\n9 deliver 1 0\n  sent 3 WriteRep 0 2 1\n10 deliv\
er 3 2\n11 turn 2\n  2 store 8 64 7 = done\n12 turn 2\n13 deliver 0 0\n  sent 4 ReadReq 0 2 2\n14 tu\
rn 0\n  sent 5 ReadReq 0 2 3\n15 deliver 4 2\n  sent 6 ReadRep 2 1 1\n16 deliver 6 1\n17 turn 1\n  1 \
load 8 64 = value 7\n18 turn 1\n  sent 7 WriteReq 1 2 1\n19 deliver 7 2\n  sent 8 WriteRep 2 1 2\n20 \
deliver 5 2\n  sent 9 ReadReq 2 1 3\n21 deliver 8 1\n22 deliver 2 0\n23 turn 1\n  1 store 8 64 7 = d\
one\n24 turn 1\n25 turn 2\n  sent 10 WriteReq 2 1 4\n26 deliver 9 1\n  sent 11 ReadRep 1 0 2\n27 del\
iver 11 0\n  sent 12 ReadReq 0 1 1\n28 turn 0\n  0 load 8 64 = value 7\n29 deliver 10 1\n  sent 13 W\
riteRep 1 2 2\n30 turn 1\n  sent 14 ReadReq 1 2 3\n31 deliver 12 1\n32 deliver 13 2\n  sent 15 Inval \
2 0 2\n33 deliver 15 0\n  sent 16 InvalAck 0 2 4\n34 turn 0\n  sent 17 WriteReq 0 2 5\n35 deliver 16 \
2\n36 turn 2\n  2 store 8 64 7 = done\n37 turn 2\n38 deliver 17 2\n  sent 18 WriteRep 2 0 3\n39 deli\
ver 14 2\n  sent 19 ReadReq 2 0 4\n40 deliver 18 0\n41 turn 0\n  0 store 8 64 7 = done\n42 turn 0\n4\
3 turn 3\n44 turn 2\n  sent 20 WriteReq 2 0 5\n45 deliver 19 0\n  sent 21 ReadRep 0 1 2\n46 deliver \
21 1\n  sent 22 ReadReq 1 0 3\n47 turn 1\n  1 load 8 64 = value 7\n48 deliver 20 0\n  sent 23 WriteR\
ep 0 2 6\n49 turn 0\n  sent 24 ReadReq 0 2 7\n50 deliver 22 0\n51 deliver 23 2\n  sent 25 Inval 2 1 \
5\n52 deliver 25 1\n  sent 26 InvalAck 1 2 4\n53 turn 1\n  sent 27 WriteReq 1 2 5\n54 deliver 26 2\n\
55 turn 2\n  2 store 8 64 7 = done\n56 turn 2\n57 deliver 27 2\n  sent 28 WriteRep 2 1 6\n58 deliver \
24 2\n  sent 29 ReadReq 2 1 7\n59 deliver 28 1\n60 turn 1\n  1 store 8 64 7 = done\n61 turn 1\n62 tu\
rn 3\nnode 0 open\nnode 1 open\nnode 2 open\nnode 3 open\n";

/// The text of `first_load.trace`.
pub const FIRST_LOAD: &str = "\
1 turn 1\n2 turn 1\n  sent 0 ReadReq 1 0 1\n3 deliver 0 0\n  sent 1 ReadRep 0 1 1\n4 deliver 1 1\n5 \
turn 1\n  1 load 8 256 = value 0\n6 turn 1\nnode 1: 0\nnode 0 ended\nnode 1 ended\n";

/// The text of `forwarded_read.trace`.
pub const FORWARDED_READ: &str = "\
1 turn 2\n2 turn 2\n  sent 0 ReadReq 2 1 1\n3 deliver 0 1\n  sent 1 ReadReq 1 0 1\n4 deliver 1 0\n  \
sent 2 ReadRep 0 2 1\n5 deliver 2 2\n6 turn 2\n  2 load 8 64 = value 0\n7 turn 2\nnode 2: 0\nnode 0 \
ended\nnode 1 ended\nnode 2 ended\n";

/// The text of `four_readers.trace`.
pub const FOUR_READERS: &str = "\
1 turn 1\n2 turn 1\n  sent 0 ReadReq 1 2 1\n3 turn 2\n4 turn 2\n  sent 1 ReadReq 2 0 1\n5 turn 3\n6 \
turn 3\n  sent 2 ReadReq 3 2 1\n7 deliver 0 2\n8 deliver 2 2\n9 deliver 1 0\n  sent 3 ReadRep 0 2 1\n\
10 deliver 3 2\n  sent 4 ReadReq 2 0 2\n  sent 5 ReadReq 2 0 3\n11 deliver 4 0\n  sent 6 ReadRep 0 1 \
1\n12 deliver 5 0\n  sent 7 ReadRep 0 3 1\n13 deliver 7 3\n14 deliver 7 3\n15 deliver 6 1\n16 turn 0\
\n17 turn 0\n  0 load 8 512 = value 0\n18 turn 0\n19 turn 1\n  1 load 8 512 = value 0\n20 turn 1\n21 \
turn 2\n  2 load 8 512 = value 0\n22 turn 2\n23 turn 3\n  3 load 8 512 = value 0\n24 turn 3\nnode 0: \
0\nnode 1: 0\nnode 2: 0\nnode 3: 0\nnode 0 ended\nnode 1 ended\nnode 2 ended\nnode 3 ended\n";

/// The text of `late_read_page.trace`.
pub const LATE_READ_PAGE: &str = "\
1 turn 2\n2 turn 2\n  sent 0 ReadReq 2 1 1\n3 deliver 0 1\n  sent 1 ReadReq 1 0 1\n4 deliver 1 0\n  \
sent 2 ReadRep 0 2 1\n5 turn 1\n6 turn 1\n7 turn 1\n  sent 3 WriteReq 1 0 2\n8 deliver 3 0\n  sent 4 \
WriteRep 0 1 1\n9 deliver 4 1\n  sent 5 Inval 1 2 1\n10 deliver 5 2\n11 turn 1\n12 deliver 2 2\n  se\
nt 6 InvalAck 2 1 2\n13 deliver 6 1\n14 turn 1\n  1 store 8 256 5 = done\n15 turn 2\n  2 load 8 256 \
= value 0\n16 turn 2\nnode 2: 0\nnode 0 ended\nnode 1 ended\nnode 2 ended\n";

/// The text of `lost_request.trace`.
pub const LOST_REQUEST: &str = "\
1 turn 1\n2 turn 1\n  sent 0 ReadReq 1 0 1\n3 pulse 1 0\n  sent 1 ReadReq 1 0 1\n4 deliver 1 0\n  se\
nt 2 ReadRep 0 1 1\n5 deliver 2 1\n6 turn 1\n  1 load 8 256 = value 0\n7 turn 1\nnode 1: 0\nnode 0 e\
nded\nnode 1 ended\n";

/// The text of `node_0_first.trace`.
pub const NODE_0_FIRST: &str = "\
1 turn 0\n2 turn 0\n3 turn 0\n4 turn 0\n  0 store 8 256 1 = done\n5 turn 0\n  0 load 8 512 = value 0\
\n6 turn 0\n7 turn 1\n8 turn 1\n9 turn 1\n10 turn 1\n  sent 0 WriteReq 1 0 1\n11 deliver 0 0\n  sent \
1 WriteRep 0 1 1\n12 deliver 1 1\n13 turn 1\n  1 store 8 512 1 = done\n14 turn 1\n  sent 2 ReadReq 1 \
0 2\n15 deliver 2 0\n  sent 3 ReadRep 0 1 2\n16 deliver 3 1\n17 turn 1\n  1 load 8 256 = value 1\n18 \
turn 1\nnode 0: 0\nnode 1: 1\nnode 0 ended\nnode 1 ended\n";

/// The text of `node_1_first.trace`.
pub const NODE_1_FIRST: &str = "\
1 turn 1\n2 turn 1\n3 turn 1\n4 turn 1\n  sent 0 WriteReq 1 0 1\n5 deliver 0 0\n  sent 1 WriteRep 0 \
1 1\n6 deliver 1 1\n7 turn 1\n  1 store 8 512 1 = done\n8 turn 1\n  sent 2 ReadReq 1 0 2\n9 deliver \
2 0\n  sent 3 ReadRep 0 1 2\n10 deliver 3 1\n11 turn 1\n  1 load 8 256 = value 0\n12 turn 1\n13 turn \
0\n14 turn 0\n15 turn 0\n16 turn 0\n  sent 4 Inval 0 1 3\n17 turn 0\n18 deliver 4 1\n  sent 5 InvalA\
ck 1 0 3\n19 deliver 5 0\n20 turn 0\n  0 store 8 256 1 = done\n21 turn 0\n  sent 6 ReadReq 0 1 4\n22 \
deliver 6 1\n  sent 7 ReadRep 1 0 4\n23 deliver 7 0\n24 turn 0\n  0 load 8 512 = value 1\n25 turn 0\n\
node 0: 1\nnode 1: 0\nnode 0 ended\nnode 1 ended\n";

/// The text of `refused_accesses.trace`.
pub const REFUSED_ACCESSES: &str = "\
1 turn 0\n2 turn 0\n  0 load 8 120 = value 0\n3 turn 0\n4 turn 0\n  0 load 8 121 = refused 3\n5 turn \
0\n6 turn 0\n  0 load 1 128 = refused 4\n7 turn 0\n8 turn 0\n  0 load 1 0 = refused 5\n9 turn 0\n10 \
turn 0\n  0 load 8 129 = refused 3\nnode 0 ended\nnode 1 ended\n";

/// The text of `stale_hint.trace`.
pub const STALE_HINT: &str = "\
1 turn 1\n2 turn 1\n3 turn 1\n  sent 0 WriteReq 1 0 1\n4 deliver 0 0\n  sent 1 WriteRep 0 1 1\n5 del\
iver 1 1\n6 turn 1\n  1 store 8 256 1 = done\n7 turn 2\n8 turn 2\n9 turn 2\n  sent 2 WriteReq 2 0 1\n\
10 deliver 2 0\n  sent 3 WriteReq 0 1 2\n11 deliver 3 1\n  sent 4 WriteRep 1 2 1\n12 deliver 4 2\n13 \
turn 2\n  2 store 8 256 2 = done\n14 turn 0\n15 turn 0\n  sent 5 ReadReq 0 2 1\n16 deliver 5 2\n  se\
nt 6 ReadRep 2 0 2\n17 deliver 6 0\n18 turn 0\n  0 load 8 256 = value 2\n19 turn 0\nnode 0: 2\nnode \
0 ended\nnode 1 ended\nnode 2 ended\n";

/// The text of `stores_first.trace`.
pub const STORES_FIRST: &str = "\
1 turn 0\n2 turn 0\n3 turn 0\n4 turn 0\n  0 store 8 256 1 = done\n5 turn 1\n6 turn 1\n7 turn 1\n8 tu\
rn 1\n  sent 0 WriteReq 1 0 1\n9 deliver 0 0\n  sent 1 WriteRep 0 1 1\n10 deliver 1 1\n11 turn 1\n  \
1 store 8 512 1 = done\n12 turn 0\n  sent 2 ReadReq 0 1 2\n13 turn 1\n  sent 3 ReadReq 1 0 2\n14 del\
iver 2 1\n  sent 4 ReadRep 1 0 3\n15 deliver 3 0\n  sent 5 ReadRep 0 1 3\n16 deliver 4 0\n17 deliver \
5 1\n18 turn 0\n  0 load 8 512 = value 1\n19 turn 1\n  1 load 8 256 = value 1\n20 turn 0\n21 turn 1\n\
node 0: 1\nnode 1: 1\nnode 0 ended\nnode 1 ended\n";

/// The text of `string_not_sent.trace`.
pub const STRING_NOT_SENT: &str = "\
1 turn 1\n2 turn 1\n  sent 0 ReadReq 1 0 1\n3 deliver 1 1\n  refused 19\n";
