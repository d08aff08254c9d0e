//! Job texts with what `correlate` writes for them, on all four pairs of clocks, and the limits of a text.

use clock::Clock;
use job_text::{MAX_BYTES, MAX_LINES};
use link_clock::LinkClock;
use play::{MAX_OUTPUT, correlate};
use row_clock::RowClock;

// Whether a pair of clocks writes what is expected.
fn writes_on<F: Clock + Drop, R: Clock + Drop>(text: &[u8], expected: &[u8]) -> bool {
    let mut out = [0u8; MAX_OUTPUT];
    let end = correlate::<F, R>(text, &mut out);
    &out[..end] == expected
}

// Whether each pair of clocks does.
fn writes(text: &[u8], expected: &[u8]) -> bool {
    writes_on::<RowClock, RowClock>(text, expected)
        && writes_on::<LinkClock, LinkClock>(text, expected)
        && writes_on::<RowClock, LinkClock>(text, expected)
        && writes_on::<LinkClock, RowClock>(text, expected)
}

const CASES: [(&[u8], &[u8]); 30] = [
    (b"", b""),
    (b"\n", b"line=1 refused=20\n"),
    (b"x", b"line=1 refused=20\n"),
    (b"nodes=2\nlocal=1", b"line=2 refused=20\n"),
    (b"nodes=2\n\nlocal=1\n", b"line=2 refused=20\n"),
    (b"nodes=2\r\n", b"line=1 refused=20\n"),
    (b"nodes=2 \n", b"line=1 refused=20\n"),
    (b"nodes=\t2\n", b"line=1 refused=20\n"),
    (b"nodes=02\n", b"line=1 refused=20\n"),
    (b"nodes=0\n", b"line=1 refused=20\n"),
    (b"nodes=65536\n", b"line=1 refused=20\n"),
    (b"nodes=99999999999999999999\n", b"line=1 refused=20\n"),
    (b"Nodes=2\n", b"line=1 refused=20\n"),
    (b"nodes=2\nlocal=1\nsend=1  msg=2\n", b"line=3 refused=20\n"),
    (b"send=1 with=2\n", b"line=1 refused=20\n"),
    (b"order=1.1 to=2\n", b"line=1 refused=20\n"),
    (b"order=1.1.1 to=2.2\n", b"line=1 refused=20\n"),
    (b"nodes=2\x00\n", b"line=1 refused=20\n"),
    (b"\x80\xff\n", b"line=1 refused=20\n"),
    (b"close=yes\n", b"line=1 refused=20\n"),
    (b"nodes=65535\n", b"line=1 refused=2\n"),
    (b"nodes=16\n", b""),
    (b"local=1\nnodes=1\nlocal=1\n", b"line=1 refused=1\n"),
    (
        b"nodes=2\nmeet=1 with=1\nmeet=1 with=3\n",
        b"line=2 refused=10\nline=3 refused=5\n",
    ),
    (
        b"nodes=2\nsend=1 msg=65535\nsend=2 msg=65535\n",
        b"line=3 refused=7\n",
    ),
    (
        b"nodes=2\nrecv=1 msg=9\nsend=1 msg=9\nrecv=1 msg=9\n",
        b"line=2 refused=8\nline=4 refused=10\n",
    ),
    (
        b"nodes=2\nsend=1 msg=9\nrecv=2 msg=9\nrecv=2 msg=9\n",
        b"line=4 refused=9\n",
    ),
    (
        b"nodes=2\nsend=1 msg=9\nrecv=2 msg=9\norder=1.1 to=2.1\norder=2.1 to=1.1\n",
        b"line=4 answer=before\nline=5 answer=after\n",
    ),
    (
        b"nodes=2\nmeet=1 with=2\nlocal=1\nlocal=2\norder=1.1 to=2.1\norder=1.2 to=2.2\n",
        b"line=5 answer=same\nline=6 answer=concurrent\n",
    ),
    (
        b"nodes=1\norder=1.1 to=1.1\nlocal=1\nnodes=1\norder=1.1 to=1.1\n",
        b"line=2 refused=16\nline=5 refused=16\n",
    ),
];

#[test]
fn texts(rt: HostRuntime) {
    for (text, expected) in &CASES {
        assert!(rt; writes(text, expected));
    }
}

#[test]
fn limits(rt: HostRuntime) {
    assert!(rt; writes(&[b'\n'; MAX_LINES], b"line=1 refused=20\n"));
    assert!(rt; writes(&[b'\n'; MAX_LINES + 1], b"refused=21\n"));
    assert!(rt; writes(&[b'x'; MAX_BYTES], b"line=1 refused=20\n"));
    assert!(rt; writes(&[b'x'; MAX_BYTES + 1], b"refused=21\n"));
}
