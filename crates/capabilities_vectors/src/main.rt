// Runs capabilities strings against worked-out answers: document 01's examples, zero bytes as document 02 has them, and
// strings of real monitors.
// Writes one line a group: how many of its strings were answered right.
// Every expected number is the papers' own, as a numeral: none is named by a constant that is under test.
#![tactic(auto)]

use buffers::front_mut;
use message_rules::Position;
use message_rules::refusal::RefusedAt;
use streams::STDOUT_FILENO;

// The length of the four buffers: more than 512, so that the reader's own limit is seen.
const ROOM: usize = 600;

// The number of nodes of a string, and their digest; or the answer number and the position of its refusal.
type Answer = Result<(usize, u32), (u8, usize)>;

// Returns three times the digest plus the value, so that each value counts, and where it stands.
fn mix(digest: u32, value: u32) -> u32 {
    digest.wrapping_mul(3).wrapping_add(value)
}

// Returns the answer to a string, with room for `room` nodes.
fn answer(text: &[u8], room: usize) -> Answer {
    // Four rows: C calls the reader so.
    let mut starts = [0u16; ROOM];
    let mut lengths = [0u16; ROOM];
    let mut parents = [0u16; ROOM];
    let mut groups = [0u8; ROOM];
    let read = capabilities_reader::read(
        text,
        &mut starts,
        &mut lengths,
        &mut parents,
        front_mut(&mut groups, room),
    );
    match read {
        Ok(count) => {
            let words = starts.iter().zip(&lengths);
            let nodes = words.zip(parents.iter().zip(&groups)).take(count);
            let digest = nodes.fold(0, |all, ((start, length), (parent, group))| {
                let word = mix(mix(all, u32::from(*start)), u32::from(*length));
                mix(mix(word, u32::from(*parent)), u32::from(*group))
            });
            Ok((count, digest))
        }
        Err(
            RefusedAt {
                refusal,
                position: Position(place),
            },
        ) => Err((u8::from(refusal), place)),
    }
}

// What the strings of a group came to.
#[derive(Clone, Copy, Default)]
struct Tally {
    // How many were tried.
    tried: u64,
    // How many of them were answered right.
    right: u64,
}

impl Tally {
    // Counts a string, which is to be answered as wanted, with room for `room` nodes.
    fn try_string(&mut self, text: &[u8], room: usize, wanted: Answer) {
        let right = answer(text, room) == wanted;
        self.tried = self.tried.wrapping_add(1);
        self.right = self.right.wrapping_add(u64::from(right));
    }

    // Counts a string that is to be accepted, with so many nodes and this digest.
    fn nodes(&mut self, text: &[u8], count: usize, digest: u32) {
        self.try_string(text, ROOM, Ok((count, digest)));
    }

    // Counts a string that is to be refused, with room for `room` nodes.
    fn refused(&mut self, text: &[u8], room: usize, number: u8, place: usize) {
        self.try_string(text, room, Err((number, place)));
    }

    // Counts a string whose grammar is wrong at this position.
    fn wrong(&mut self, text: &[u8], place: usize) {
        self.refused(text, ROOM, 13, place);
    }

    // Writes how many strings of a group were answered right.
    fn report(self, name: &[u8]) {
        io::write_all(STDOUT_FILENO, name);
        io::write_all(STDOUT_FILENO, b": ");
        io::print_decimal(STDOUT_FILENO, self.right);
        io::write_all(STDOUT_FILENO, b" of ");
        io::print_decimal(STDOUT_FILENO, self.tried);
        io::write_all(STDOUT_FILENO, b" right\n");
    }
}

// Runs document 01's examples, those marked [P] too.
fn examples() {
    let mut t = Tally::default();
    t.nodes(b"(vcp(10 14(05 08)))", 5, 270490155);
    t.nodes(b"()", 0, 0);
    t.wrong(b"(a(b)(c))", 5);
    t.wrong(b"((05))", 1);
    t.wrong(b"(a) ", 3);
    t.wrong(b"(a", 2);
    t.report(b"examples");
}

// Runs what document 01 leaves to its reader's care: where a group may stand, an empty one, and spaces.
fn readings() {
    let mut t = Tally::default();
    t.wrong(b"", 0);
    t.wrong(b"a", 0);
    t.nodes(b"(a(b)c)", 3, 1290372201);
    t.wrong(b"(a(b) (c))", 6);
    t.nodes(b"(a )", 1, 196641);
    t.nodes(b"(a())", 1, 196642);
    t.report(b"readings");
}

// Runs bytes at the edges: 21 and 7E are letters.
// 1F, 7F, 80, FF and 00 are 13 at their position, in a word too.
fn bytes() {
    let mut t = Tally::default();
    t.nodes(b"(!)", 1, 196641);
    t.nodes(b"(~)", 1, 196641);
    t.wrong(b"(\x7f)", 1);
    t.wrong(b"(a\x1f)", 2);
    t.wrong(b"(a\x7fb)", 2);
    t.wrong(b"(a\x80b)", 2);
    t.wrong(b"(ab\xffc)", 3);
    t.wrong(b"(a\0b)", 2);
    t.report(b"bytes at the edges");
}

// Returns one group whose list alternates two bytes, with its ")" at the index `last` and zeros behind it.
fn listed<const N: usize>(last: usize, first: u8, second: u8) -> [u8; N] {
    let mut text = [0u8; N];
    for (at, b) in text.iter_mut().enumerate() {
        *b = match at {
            0 => b'(',
            _ if at == last => b')',
            _ if at > last => 0,
            _ if at % 2 == 1 => first,
            _ => second,
        };
    }
    text
}

// Runs the depth: eight levels are read, and the ninth "(" is 15.
fn depth() {
    let mut t = Tally::default();
    t.nodes(b"(a(a(a(a(a(a(a(a))))))))", 8, 4090424395);
    t.refused(b"(a(a(a(a(a(a(a(a(a)))))))))", ROOM, 15, 16);
    t.report(b"depth 8 and 9");
}

// Runs the length: 4,096 bytes are read, and one more is 11 at position 0.
fn length() {
    let longest = listed::<4096>(4095, b'a', b'a');
    let longer = listed::<4097>(4096, b'a', b'a');
    let mut t = Tally::default();
    t.nodes(&longest, 1, 233478);
    t.refused(&longer, ROOM, 11, 0);
    t.report(b"4096 and 4097 bytes");
}

// Runs zero bytes behind the outer group: one, two and 40. They make no node.
fn zeros_behind() {
    let forty = listed::<43>(2, b'a', b'a');
    let mut t = Tally::default();
    t.nodes(b"()\0", 0, 0);
    t.nodes(b"()\0\0", 0, 0);
    t.nodes(b"(a)\0", 1, 196641);
    t.nodes(b"(a(b))\0\0", 2, 15928092);
    t.nodes(&forty, 1, 196641);
    t.try_string(b"()\0", 0, Ok((0, 0)));
    t.try_string(b"(a)\0\0", 1, Ok((1, 196641)));
    t.refused(b"(a)\0", 0, 14, 1);
    t.report(b"zeros behind");
}

// Runs other bytes behind the outer group, with zeros before them or without: 13 at the first that is no zero.
fn others_behind() {
    let mut forty = listed::<43>(1, b'a', b'a');
    forty[42] = b'a';
    let mut t = Tally::default();
    t.wrong(b"()\0a", 3);
    t.wrong(b"()\0\0\0a", 5);
    t.wrong(&forty, 42);
    t.wrong(b"()\0 ", 3);
    t.wrong(b"()\0(", 3);
    t.wrong(b"()\0)", 3);
    t.wrong(b"()\0\x01\0", 3);
    t.wrong(b"() \0", 2);
    t.report(b"other bytes behind");
}

// Runs zeros anywhere else, each 13 at its position, unless an earlier position is refused.
fn zeros_elsewhere() {
    let mut t = Tally::default();
    t.wrong(b"\0", 0);
    t.wrong(b"\0()", 0);
    t.wrong(b"(\0)", 1);
    t.wrong(b"(a\0)", 2);
    t.wrong(b"(a \0)", 3);
    t.wrong(b"(a\0(b))", 2);
    t.wrong(b"(a(\0b))", 3);
    t.wrong(b"(a(b)\0)", 5);
    t.wrong(b"(a\0", 2);
    t.wrong(b"((\0", 1);
    t.refused(b"(a b\0)", 1, 14, 3);
    t.report(b"zeros elsewhere");
}

// Runs the length with zeros, which count: 4,096 bytes are read, and one more is 11 at position 0.
fn zeros_counted() {
    let word = listed::<4096>(4055, b'a', b'a');
    let longest = listed::<4096>(1, b'a', b'a');
    let longer = listed::<4097>(1, b'a', b'a');
    let mut t = Tally::default();
    t.nodes(&word, 1, 233118);
    t.nodes(&longest, 0, 0);
    t.refused(&longer, ROOM, 11, 0);
    t.report(b"4096 and 4097 bytes with zeros");
}

// Counts strings that have little room.
fn little_room(t: &mut Tally) {
    t.try_string(b"()", 0, Ok((0, 0)));
    t.try_string(b"(  )", 0, Ok((0, 0)));
    t.refused(b"(a)", 0, 14, 1);
    t.refused(b"(a b)", 1, 14, 3);
}

// Runs the room: 512 words are read, although the buffers have room for more.
// The next one is 14 at its first byte.
fn room() {
    let most = listed::<1026>(1025, b'a', b' ');
    let more = listed::<1028>(1027, b'a', b' ');
    let mut t = Tally::default();
    t.nodes(&most, 512, 162003968);
    t.refused(&more, ROOM, 14, 1025);
    little_room(&mut t);
    t.report(b"512 and 513 words");
}

// Runs strings as monitors give them.
// They are source 004's, two whole ones, one with windows, one that ends with a zero byte, and two cut off, of which
// one ends with a zero byte too.
fn monitors() {
    let mut t = Tally::default();
    t.nodes(b"(vcp(10 12 16 18 1A 50 92))", 8, 1847922888);
    t.nodes(
        b"(prot(monitor)type(LCD)model(P2419H)cmds(01 02 03 07 0C E3 F3)vcp(02 04 05 08 10 12 14(05 08 0B 0C) 16 18 1A 52 60(01 0F 11) AA(01 02) AC AE B2 B6 C6 C8 C9 D6(01 04 05) DC(00 03 05) DF E0 E1 E2(00 02 04 0E 12 14) F0(00 08) F1(01 02) F2 FD)mswhql(1)asset_eep(40)mccs_ver(2.1))",
        76,
        392568916,
    );
    t.nodes(
        b"(prot(monitor)type(lcd)model(ACER VG270)cmds(01 02 03 07 0C E3 F3)vcp(02 04 05 08 10 12 14(05 06 08 0B) 16 18 1A 52 60(01 03 0F 11) 6C 6E 70 72(50 64 78 8C A0) 86(02 08) 87 AC AE B2 B6 C0 C6 C8 C9 CA(01 02) CC(02 03 04 05 06 08 09 0A 0D) D6(01 04 05) DF FD FF)mswhql(1)asset_eep(40)mccs_ver(2.2))",
        83,
        507510101,
    );
    t.nodes(
        b"(prot(display)type(lcd)model(xxxxx)cmds(xxxxx)vcp(02 03 10 12 C8 DC(00 01 02 03 07) DF)mccs_ver(2.2)window1(type(PIP)area(25 25 1895 1175)max(640 480)min(10 10)window(10))vcpname(10(Brightness)))",
        42,
        798556488,
    );
    t.nodes(
        b"(prot(monitor)type(LCD)model(X)vcp(10 12))\0",
        9,
        585145425,
    );
    t.wrong(b"(prot(monitor)type(LCD)vcp(10 12 14(05 08 0B)", 45);
    t.wrong(b"(prot(monitor)type(LCD)vcp(10 12 14(05 08 0B)\0", 45);
    t.report(b"monitors");
}

fn main() {
    examples();
    readings();
    bytes();
    depth();
    length();
    room();
    zeros_behind();
    others_behind();
    zeros_elsewhere();
    zeros_counted();
    monitors();
}
