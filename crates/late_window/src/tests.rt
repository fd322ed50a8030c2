use crate::{Entered, Place, Window};
use std::process::Abort;

#[derive(Debug, Clone, Copy, PartialEq, Eq)]
struct Parts {
    issued: u128,
    received: u64,
    pending: u32,
    lost: u128,
}

fn figures(issued: u128, received: u64, pending: u32, lost: u128) -> Parts {
    Parts {
        issued,
        received,
        pending,
        lost,
    }
}

fn first(place: Place, number: i128) -> Entered {
    Entered::First { place, number }
}

// Enters the marks, and gives the answer to the last of them.
fn enter_all(rt: &impl Abort, window: &mut Window, marks: &[u32]) -> Option<Entered> {
    let mut answer = None;
    for mark in marks {
        assert!(rt; window.entered() < 9);
        answer = Some(window.enter(*mark));
    }
    answer
}

// Worked windows of width 64: the marks, the answer to the last of them, and the figures after it.
#[test]
fn worked_windows(rt: HostRuntime) {
    use Entered::{Late, Repeat};
    use Place::{Inside, Least, Newest, Only};
    let rows: [(&[u32], Entered, Parts); 18] = [
        (&[4294967295], first(Only, 4294967295), figures(1, 1, 0, 0)),
        (
            &[4294967295, 0],
            first(Newest, 4294967296),
            figures(2, 2, 0, 0),
        ),
        (
            &[4294967295, 0, 1],
            first(Newest, 4294967297),
            figures(3, 3, 0, 0),
        ),
        (&[5, 7], first(Newest, 7), figures(3, 2, 1, 0)),
        (&[5, 7, 6], first(Inside, 6), figures(3, 3, 0, 0)),
        (&[5, 3], first(Least, 3), figures(3, 2, 1, 0)),
        (&[100, 37], first(Least, 37), figures(64, 2, 62, 0)),
        (&[100, 36], Late, figures(1, 1, 0, 0)),
        (&[100, 37, 37], Repeat, figures(64, 2, 62, 0)),
        (&[10, 200], first(Newest, 200), figures(191, 2, 63, 126)),
        (
            &[10, 200, 150],
            first(Inside, 150),
            figures(191, 3, 62, 126),
        ),
        (&[0, 2147483648], Late, figures(1, 1, 0, 0)),
        (
            &[0, 2147483647],
            first(Newest, 2147483647),
            figures(2147483648, 2, 63, 2147483583),
        ),
        (&[10, 1050], first(Newest, 1050), figures(1041, 2, 63, 976)),
        (
            &[10, 1050, 1034],
            first(Inside, 1034),
            figures(1041, 3, 62, 976),
        ),
        (&[3, 4294967290], first(Least, -6), figures(10, 2, 8, 0)),
        (&[10, 200, 10], Late, figures(191, 2, 63, 126)),
        (&[1, 4, 66], first(Newest, 66), figures(66, 3, 62, 1)),
    ];
    for (marks, last, want) in rows {
        let mut window = Window::open(64);
        let answer = enter_all(&rt, &mut window, marks);
        assert_eq!(rt; answer, Some(last), "at {marks:?}");
        let found = figures(
            window.issued(),
            window.received(),
            window.pending(),
            window.lost(),
        );
        assert_eq!(rt; found, want, "at {marks:?}");
    }
}

#[test]
fn newest_mark_wraps(rt: HostRuntime) {
    let mut window = Window::open(1024);
    assert_eq!(rt; window.newest_mark(), None);
    window.enter(4294967295);
    assert_eq!(rt; window.newest_mark(), Some(4294967295));
    window.enter(2);
    window.enter(1);
    assert_eq!(rt; window.newest_mark(), Some(2));
    assert_eq!(rt; window.entered(), 3);
}
