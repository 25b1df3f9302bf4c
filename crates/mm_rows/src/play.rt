//! `play`: a script of inserts into one collection of a new database.

use crate::calls::ONE_INSERT;
use crate::calls::Script::{Inserts, Padded, Text};
use crate::steps::Step::{Bytes, Calls, Fail, Len, Make, Moment, Play, Run};
use crate::steps::{Case, hold};

const USAGE: &[u8] =
    b"usage: mmap play or run or recover or dump or check or gen FOLDER [--db LIST] [--nsmb N] [--jkb N] [--commit N] [--flush N] [--stamp N] [--seed N] [--count N]\n";

const MADE: &[Case] = &[
    // one record: the file's header, the extent's header, the record with its document, and the deleted block behind it
    &[
        Play(Text(ONE_INSERT), 0, b"1 ok 1\n"),
        Len(1_048_576),
        Bytes(
            0,
            &[
                4, 0, 0, 0, 5, 0, 0, 0, 0, 0, 16, 0, 0, 0, 0, 0, 0, 0, 16, 0, 0, 0, 0, 0, 0, 0, 0,
                0,
            ],
        ),
        Bytes(
            8192,
            b"DCBA\0\0\0\0\x00\x20\0\0\xff\xff\xff\xff\0\0\0\0\xff\xff\xff\xff\0\0\0\0test.c\0\0",
        ),
        Bytes(
            8368,
            b"\x20\0\0\0\x00\x20\0\0\xff\xff\xff\xff\xff\xff\xff\xff\x0e\0\0\0\x10_id\0\x01\0\0\0\0",
        ),
        Bytes(
            8400,
            &[
                0x30, 0xdf, 0x0f, 0, 0, 0x20, 0, 0, 255, 255, 255, 255, 0, 0, 0, 0,
            ],
        ),
    ],
    // no insert: a file without extents, and no output
    &[
        Play(Text(b""), 0, b""),
        Len(1_048_576),
        Bytes(
            0,
            &[
                4, 0, 0, 0, 5, 0, 0, 0, 0, 0, 16, 0, 0, 0, 0, 0, 0, 0x20, 0, 0, 0, 0xe0, 0x0f, 0,
            ],
        ),
    ],
    // blocks leave 80 bytes of the extent. A document that asks for more finds no space; one that just fits does, and its
    // record keeps a rest below 32
    &[
        Play(
            Inserts(&[
                524_272, 262_128, 131_056, 65_520, 32_752, 16_368, 4080, 2032, 1008, 496, 240, 112,
                48, 16,
            ]),
            0,
            b"1 ok 1\n2 ok 1\n3 ok 1\n4 ok 1\n5 ok 1\n6 ok 1\n7 ok 1\n8 ok 1\n9 ok 1\n10 ok 1\n11 ok 1\n12 NoSpace\n13 ok 1\n14 NoSpace\n",
        ),
        Bytes(
            1_048_496,
            &[
                80, 0, 0, 0, 0, 0x20, 0, 0, 255, 255, 255, 255, 0xb0, 0xfe, 0x0f, 0,
            ],
        ),
    ],
    // a rest of 32 bytes or more is one deleted block
    &[
        Play(
            Inserts(&[
                524_272, 262_128, 131_056, 65_520, 32_752, 16_368, 4080, 2032, 1008, 496, 240, 16,
            ]),
            0,
            b"1 ok 1\n2 ok 1\n3 ok 1\n4 ok 1\n5 ok 1\n6 ok 1\n7 ok 1\n8 ok 1\n9 ok 1\n10 ok 1\n11 ok 1\n12 ok 1\n",
        ),
        Bytes(
            1_048_528,
            &[48, 0, 0, 0, 0, 0x20, 0, 0, 255, 255, 255, 255, 0, 0, 0, 0],
        ),
    ],
    // hex digits of both cases, names with each kind of byte, several spaces, and a last line that nothing ends
    &[Play(
        Text(
            b"1 test insert aZ_0.system. hex:0E000000105f6964000100000000\n\n  8  test insert aZ_0.system. { } ",
        ),
        0,
        b"1 ok 1\n3 ok 1\n",
    )],
];

/// Each script is refused with its first line that isn't played and what of it isn't there, and the disk has had no call.
const REFUSED: &[Case] = &[
    &[
        Play(Text(b"9 test insert c {}\n"), 3, b"line 1: session\n"),
        Calls(0),
    ],
    &[
        Play(Text(b"1\ttest insert c {}\n"), 3, b"line 1: session\n"),
        Calls(0),
    ],
    &[
        Play(Text(b"1 other insert c {}\n"), 3, b"line 1: database\n"),
        Calls(0),
    ],
    &[
        Play(
            Text(b"1 test insert c {}\n\n1 test frob c {}\n"),
            3,
            b"line 3: verb\n",
        ),
        Calls(0),
    ],
    &[
        Play(
            Text(b"1 test insert c {}\n1 test insert d {}\n"),
            3,
            b"line 2: verb\n",
        ),
        Calls(0),
    ],
    &[
        Play(Text(b"1 test find c {}\n"), 3, b"line 1: verb\n"),
        Calls(0),
    ],
    &[
        Play(
            Text(b"1 test insert system.c {}\n"),
            3,
            b"line 1: collection\n",
        ),
        Calls(0),
    ],
    &[
        Play(
            Text(b"1 test insert c {}\n1 test insert c {\"_id\": 1"),
            3,
            b"line 2: document\n",
        ),
        Calls(0),
    ],
    &[
        Play(
            Text(b"1 test insert c hex:0500000001\n"),
            3,
            b"line 1: document\n",
        ),
        Calls(0),
    ],
    &[
        Play(
            Text(b"# a comment\n1 test insert c {} j\n"),
            3,
            b"line 2: word\n",
        ),
        Calls(0),
    ],
    &[
        Play(Text(b"1 test insert c {} {}\n"), 3, b"line 1: word\n"),
        Calls(0),
    ],
    &[
        Play(Text(b"1 test insert c {}\n!commit\n"), 3, b"line 2: step\n"),
        Calls(0),
    ],
    &[
        Play(Text(b"1 test insert c {} \xff\n"), 3, b"line 1: utf-8\n"),
        Calls(0),
    ],
    &[
        Play(
            Text(b"1 test drop c\n1 test insert c {\n"),
            3,
            b"line 2: document\n",
        ),
        Calls(0),
    ],
    // the line that holds byte 67,108,865 is refused, whatever else it is
    &[Play(Padded(67_108_865), 3, b"line 2: too long\n"), Calls(0)],
];

/// Words that give no command, a source, a disk and a sink that fail, and files that are there.
const FAULTS: &[Case] = &[
    &[Run(&[], (0, 0), 2, USAGE), Calls(0)],
    &[Run(&["play"], (0, 0), 2, USAGE), Calls(0)],
    &[Run(&["play", "F", "G"], (0, 0), 2, USAGE), Calls(0)],
    &[Run(&["PLAY", "F"], (0, 0), 2, USAGE), Calls(0)],
    // the source fails at its second read: nothing was asked of the disk
    &[Run(&["play", "F"], (2, 0), 5, b"source fault\n"), Calls(0)],
    // each changing call of the disk fails once
    &[
        Fail(1),
        Play(Text(ONE_INSERT), 4, b"disk fault\n"),
        Moment(1),
    ],
    &[
        Fail(2),
        Play(Text(ONE_INSERT), 4, b"disk fault\n"),
        Moment(2),
    ],
    &[
        Fail(3),
        Play(Text(ONE_INSERT), 4, b"disk fault\n"),
        Moment(3),
    ],
    // the first of the files by its name is told, and nothing changes
    &[
        Make("test.0"),
        Make("other"),
        Play(Text(ONE_INSERT), 8, b"bad file other 0 present\n"),
        Moment(2),
    ],
    // the sink fails at its first write: the file is there all the same
    &[Run(&["play", "F"], (0, 1), 6, b""), Len(1_048_576)],
];

#[test]
fn files_are_made(rt: HostRuntime) {
    hold(&rt, rt.alloc(), MADE);
}

#[test]
fn scripts_are_refused(rt: HostRuntime) {
    hold(&rt, rt.alloc(), REFUSED);
}

#[test]
fn faults_are_told(rt: HostRuntime) {
    hold(&rt, rt.alloc(), FAULTS);
}
