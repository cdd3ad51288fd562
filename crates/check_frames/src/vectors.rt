// Literal frames: hexadecimal digits, and how many bits of them are received. The Rust alone made them: `host/sample frames` writes this file with its
// encode_uplink (host/src/vectors.rs), and a test of host/ fails where the two differ. A payload is the first bytes of 10 21 32 .. cb.
use crate::lines::frame_line;

// What encode_uplink writes in rank 0, with all six frame types; then one of the frames damaged.
pub fn rank_0(rt: &impl Print) {
    frame_line(rt, b"aaaaa06b0123eeffc000e1d22474", 112); // payload 0
    frame_line(rt, b"aaaaa08d0123eeffc00010e1d26172", 120); // payload 1
    frame_line(rt, b"aaaaa35f8123eeffc0001021e1d2c3b47083", 144); // payload 2
    frame_line(rt, b"aaaaa35f4123eeffc000102132e1d2c3967a", 144); // payload 3
    frame_line(rt, b"aaaaa35f0123eeffc00010213243e1d2ca10", 144); // payload 4
    frame_line(rt, b"aaaaa611c123eeffc0001021324354e1d2c3b4a530d1", 176); // payload 5
    frame_line(rt, b"aaaaa6118123eeffc000102132435465e1d2c3b44797", 176); // payload 6
    frame_line(rt, b"aaaaa6114123eeffc00010213243546576e1d2c3f6bb", 176); // payload 7
    frame_line(rt, b"aaaaa6110123eeffc0001021324354657687e1d2018e", 176); // payload 8
    frame_line(
        rt,
        b"aaaaa94cc123eeffc000102132435465768798e1d2c3b4a5184e",
        208,
    ); // payload 9
    frame_line(
        rt,
        b"aaaaa94c8123eeffc000102132435465768798a9e1d2c3b4e6de",
        208,
    ); // payload 10
    frame_line(
        rt,
        b"aaaaa94c4123eeffc000102132435465768798a9bae1d2c3f8ab",
        208,
    ); // payload 11
    frame_line(
        rt,
        b"aaaaa94c0123eeffc000102132435465768798a9bacbe1d25617",
        208,
    ); // payload 12
    frame_line(rt, b"aaaaa06bc123eeffc000e1d22f25", 112); // the bit 1
    frame_line(rt, b"aaaaa06ba123eeffc000e1d2a29d", 112); // the bit 0, downlink
    frame_line(rt, b"aaaaaf674123eeffc00008e40c800cd700e1d2c3bb1c", 176); // keep-alive
    frame_line(rt, b"aaaaaf670123eeffc00009e40c800cd70023e1d24230", 176); // downlink confirmation
    frame_line(rt, b"aaaaa35f4123eeffc000102132e1d2c3167b", 144); // payload 3, CRC wrong
    frame_line(rt, b"aaaaa35f4123eeffc000102132e1d2c3967b", 144); // payload 3, last bit wrong
    frame_line(rt, b"aaaaa35f4123eeffc00028109970e961cb3d0", 145); // payload 3, a bit gained
}

// What encode_uplink writes in rank 1, with all six frame types; then one of the frames damaged.
pub fn rank_1(rt: &impl Print) {
    frame_line(rt, b"aaaaa6e001fae23fd000a94fbf53", 112); // payload 0
    frame_line(rt, b"aaaaa0d201fae23fd0001ca94fc997", 120); // payload 1
    frame_line(rt, b"aaaaa598e1fae23fd0001c39694f128354e2", 144); // payload 2
    frame_line(rt, b"aaaaa59871fae23fd0001c39e7294f12b8d9", 144); // payload 3
    frame_line(rt, b"aaaaa59801fae23fd0001c39e7f2e94f1d9c", 144); // payload 4
    frame_line(rt, b"aaaaa6bf91fae23fd0001c39e7f22ba94f1283dee48d", 176); // payload 5
    frame_line(rt, b"aaaaa6bfe1fae23fd0001c39e7f22b4e694f128375b9", 176); // payload 6
    frame_line(rt, b"aaaaa6bf71fae23fd0001c39e7f22b4e90294f12f048", 176); // payload 7
    frame_line(rt, b"aaaaa6bf01fae23fd0001c39e7f22b4e9065e94f812a", 176); // payload 8
    frame_line(
        rt,
        b"aaaaa97191fae23fd0001c39e7f22b4e9065b2a94f1283ded27a",
        208,
    ); // payload 9
    frame_line(
        rt,
        b"aaaaa971e1fae23fd0001c39e7f22b4e9065b2d7694f1283ac06",
        208,
    ); // payload 10
    frame_line(
        rt,
        b"aaaaa97171fae23fd0001c39e7f22b4e9065b2d709294f12fad4",
        208,
    ); // payload 11
    frame_line(
        rt,
        b"aaaaa97101fae23fd0001c39e7f22b4e9065b2d7091ce94fe899",
        208,
    ); // payload 12
    frame_line(rt, b"aaaaa6e091fae23fd000a94fb37e", 112); // the bit 1
    frame_line(rt, b"aaaaa6e0d9fae23fd000a94f5b74", 112); // the bit 0, downlink
    frame_line(rt, b"aaaaafc971fae23fd0000eaf09e0098940a94f128855", 176); // keep-alive
    frame_line(rt, b"aaaaafc901fae23fd0000f6f09e00989403ae94ff3a4", 176); // downlink confirmation
    frame_line(rt, b"aaaaa59871fae23fd0001c39e7294f1238d8", 144); // payload 3, CRC wrong
    frame_line(rt, b"aaaaa59871fae23fd0001c39e7294f12b8d8", 144); // payload 3, last bit wrong
    frame_line(rt, b"aaaaa59871fae23fd0002e1cf394a7895c6c8", 145); // payload 3, a bit gained
}

// What encode_uplink writes in rank 2, with all six frame types; then one of the frames damaged.
pub fn rank_2(rt: &impl Print) {
    frame_line(rt, b"aaaaa034016b15403000d9a6ad69", 112); // payload 0
    frame_line(rt, b"aaaaa302016b1540300014d9a6f92e", 120); // payload 1
    frame_line(rt, b"aaaaa5a3a16b15403000142999a673596ca3", 144); // payload 2
    frame_line(rt, b"aaaaa5a3516b1540300014297e59a67373e4", 144); // payload 3
    frame_line(rt, b"aaaaa5a3016b1540300014297ed319a67894", 144); // payload 4
    frame_line(rt, b"aaaaa72cf16b1540300014297ed381d9a673598c7ce5", 176); // payload 5
    frame_line(rt, b"aaaaa72ca16b1540300014297ed3817c99a673595672", 176); // payload 6
    frame_line(rt, b"aaaaa72c516b1540300014297ed3817c2b59a6730b15", 176); // payload 7
    frame_line(rt, b"aaaaa72c016b1540300014297ed3817c2b2619a681ed", 176); // payload 8
    frame_line(
        rt,
        b"aaaaa997f16b1540300014297ed3817c2b267ed9a673598c5e5d",
        208,
    ); // payload 9
    frame_line(
        rt,
        b"aaaaa997a16b1540300014297ed3817c2b267e8399a67359df69",
        208,
    ); // payload 10
    frame_line(
        rt,
        b"aaaaa997516b1540300014297ed3817c2b267e83d459a6730681",
        208,
    ); // payload 11
    frame_line(
        rt,
        b"aaaaa997016b1540300014297ed3817c2b267e83d47919a6c392",
        208,
    ); // payload 12
    frame_line(rt, b"aaaaa034f16b15403000d9a6a4ec", 112); // the bit 1
    frame_line(rt, b"aaaaa034896b15403000d9a60a3a", 112); // the bit 0, downlink
    frame_line(rt, b"aaaab1be516b154030000add0fa00fe2c0d9a67355db", 176); // keep-alive
    frame_line(rt, b"aaaab1be016b154030000b9d0fa00fe2c02b19a6d2bc", 176); // downlink confirmation
    frame_line(rt, b"aaaaa5a3516b1540300014297e59a673f3e5", 144); // payload 3, CRC wrong
    frame_line(rt, b"aaaaa5a3516b1540300014297e59a67373e5", 144); // payload 3, last bit wrong
    frame_line(rt, b"aaaaa5a3516b154030002a14bf2cd339b9f20", 145); // payload 3, a bit gained
}

// The inputs of docs/DIFFERENCES.md, row by row.
pub fn differences(rt: &impl Print) {
    frame_line(rt, b"00a06b0123eeffc000aa55142d", 104); // preamble: 8 zeros
    frame_line(rt, b"aaaaa06a0123eeffc000aa55142d", 112); // frame type: a bit wrong
    frame_line(rt, b"aaaaa06b0123eeffc080aa55142d", 112); // repair: bit 40 flipped
    frame_line(rt, b"aaaaa06b0123eeffc00154aa285a", 111); // one bit short: bit 40 lost
    frame_line(rt, b"aaaaa06b0123eeffc000aa55142c", 111); // one bit short: the last lost
    frame_line(rt, b"aaaaa06b0123eeffc000aa010e5c", 111); // one bit short: the last of two that are equal
    frame_line(rt, b"aaaaa06b1123eeffc000aa552999", 112); // REP 1
    frame_line(rt, b"aaaaa06b4123eeffc000aa55e2fd", 112); // LI 1 of class 0
    frame_line(rt, b"aaaaa08dc123eeffc00077aa55afbb", 120); // LI 3 of class 1
    frame_line(rt, b"aaaaa35fc123eeffc00077aa550102030108", 144); // LI 3 of class 2
    frame_line(rt, b"aaaaaf67c123eeffc00008010203040506070a0be1bd", 176); // control, LI 3
    frame_line(rt, b"aaaaa06b0123eeffc000ab55271c", 112); // another authentication
}

// Bits that give no frame.
pub fn nothing(rt: &impl Print) {
    frame_line(rt, b"", 0); // no bits
    frame_line(rt, b"aaaaa", 20); // too few for a frame type
    frame_line(
        rt,
        b"aaaaa94c0123eeffc000102132435465768798a9bacbe1d256",
        200,
    ); // a body too short for a repair
    frame_line(rt, b"aaaa00000123eeffc000aa55142d", 112); // no frame type
}
