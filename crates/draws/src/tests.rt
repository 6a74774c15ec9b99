use crate::entry::{Entry, State};
use crate::rule::{DrawRule, Following, WithReplacement, WithoutReplacement};

// frames 3 and 0 pulled, and an entry still empty
fn pulled() -> [Entry; 3] {
    [
        Entry {
            frame: 3,
            state: State::Out,
        },
        Entry {
            frame: 0,
            state: State::Out,
        },
        Entry {
            frame: 0,
            state: State::Empty,
        },
    ]
}

#[test]
fn codes_and_lengths(rt: HostRuntime) {
    assert_eq!(rt; WithoutReplacement.code(), 1);
    assert_eq!(rt; WithReplacement.code(), 2);
    assert_eq!(rt; WithoutReplacement.longest(40), 40);
    assert_eq!(rt; WithReplacement.longest(40), 32_768);
}

#[test]
fn a_frame_is_drawn_once_without_replacement(rt: HostRuntime) {
    let mut table = pulled();
    assert!(rt; WithoutReplacement.may_follow(5, &mut table, 2, 4));
    assert!(rt; !WithoutReplacement.may_follow(5, &mut table, 2, 3));
    assert!(rt; !WithoutReplacement.may_follow(5, &mut table, 2, 0));
    // only the first entry counts here
    assert!(rt; WithoutReplacement.may_follow(5, &mut table, 1, 0));
    assert!(rt; !WithoutReplacement.may_follow(5, &mut table, 2, 5));
    assert!(rt; !WithoutReplacement.may_follow(5, &mut table, 99, 3));
    assert!(rt; table == pulled());
}

#[test]
fn a_frame_is_drawn_again_with_replacement(rt: HostRuntime) {
    let mut table = pulled();
    assert!(rt; WithReplacement.may_follow(5, &mut table, 2, 3));
    assert!(rt; WithReplacement.may_follow(5, &mut table, 40_000, 4));
    assert!(rt; !WithReplacement.may_follow(5, &mut table, 2, 5));
    assert!(rt; table == pulled());
}

#[test]
fn counts_without_replacement(rt: HostRuntime) {
    // ten frames, three bad; four drawn, one of them bad
    assert_eq!(rt;
        WithoutReplacement.counts(10, 3, 4, 1),
        Following { good: 4, bad: 2 }
    );
    assert_eq!(rt;
        WithoutReplacement.counts(10, 3, 0, 0),
        Following { good: 7, bad: 3 }
    );
    assert_eq!(rt;
        WithoutReplacement.counts(10, 3, 10, 3),
        Following { good: 0, bad: 0 }
    );
    // no list has these
    assert_eq!(rt;
        WithoutReplacement.counts(10, 3, 4, 5),
        Following { good: 0, bad: 0 }
    );
    assert_eq!(rt;
        WithoutReplacement.counts(10, 3, 5, 4),
        Following { good: 0, bad: 0 }
    );
    assert_eq!(rt;
        WithoutReplacement.counts(10, 3, 9, 1),
        Following { good: 0, bad: 0 }
    );
    assert_eq!(rt;
        WithoutReplacement.counts(10, 11, 0, 0),
        Following { good: 0, bad: 0 }
    );
}

#[test]
fn counts_with_replacement(rt: HostRuntime) {
    assert_eq!(rt;
        WithReplacement.counts(10, 3, 4, 1),
        Following { good: 7, bad: 3 }
    );
    assert_eq!(rt;
        WithReplacement.counts(10, 3, 32_767, 1),
        Following { good: 7, bad: 3 }
    );
    assert_eq!(rt;
        WithReplacement.counts(10, 10, 4, 4),
        Following { good: 0, bad: 10 }
    );
    // nothing follows a longest list, and no list has the others
    assert_eq!(rt;
        WithReplacement.counts(10, 3, 32_768, 1),
        Following { good: 0, bad: 0 }
    );
    assert_eq!(rt;
        WithReplacement.counts(10, 3, 4, 5),
        Following { good: 0, bad: 0 }
    );
    assert_eq!(rt;
        WithReplacement.counts(10, 0, 4, 1),
        Following { good: 0, bad: 0 }
    );
    assert_eq!(rt;
        WithReplacement.counts(10, 10, 4, 3),
        Following { good: 0, bad: 0 }
    );
    assert_eq!(rt;
        WithReplacement.counts(10, 11, 4, 1),
        Following { good: 0, bad: 0 }
    );
}
