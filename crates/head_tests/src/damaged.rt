//! Damaged logs by several numbers of workers.

use crate::log_lines::{Line, Log, NO_FILES};
use crate::logs::{Case, NOTHING, check};
use head_core::Counts;
use std::test::Fail;
use wal_log::{Damage, Place};
use wal_page::FaultKind;

// A series in 21 bytes, and a sample in 34.
const FIRST: &[Line] = &[
    Line::Series(&[(1, b"a", b"x")]),
    Line::Samples(&[(1, 1000, 1)]),
];

const SECOND: &[Line] = &[Line::Samples(&[(1, 2000, 2)])];

const SECOND_DAMAGED: &[Line] = &[
    Line::Samples(&[(1, 2000, 2)]),
    Line::Damaged,
    Line::Samples(&[(1, 2500, 9)]),
];

const THIRD: &[Line] = &[
    Line::Series(&[(2, b"a", b"y")]),
    Line::Samples(&[(2, 1000, 3)]),
];

const FOURTH: &[Line] = &[Line::Samples(&[(1, 3000, 4), (2, 3000, 5)])];

const FOURTH_DAMAGED: &[Line] = &[
    Line::Samples(&[(1, 3000, 4)]),
    Line::Damaged,
    Line::Samples(&[(2, 3000, 5)]),
];

// What is counted where the second file is damaged.
const UP_TO_THE_SECOND: Counts = Counts {
    series_records: 1,
    sample_records: 2,
    series_entries: 1,
    accepted: 2,
    ..NOTHING
};

// What is counted where just the fourth file is damaged.
const UP_TO_THE_FOURTH: Counts = Counts {
    series_records: 2,
    sample_records: 4,
    series_entries: 2,
    accepted: 4,
    ..NOTHING
};

const IN_THE_SECOND_FILE: Damage = Damage {
    place: Place {
        in_checkpoint: false,
        file: 1,
        offset: 34,
    },
    kind: FaultKind::BadSum,
};

const IN_THE_SECOND: Case = Case {
    name: "damage in the second of four files",
    log: Log {
        segments: &[FIRST, SECOND_DAMAGED, THIRD, FOURTH],
        ..NO_FILES
    },
    counts: UP_TO_THE_SECOND,
    series: 1,
    damage: Some(IN_THE_SECOND_FILE),
};

const IN_THE_FOURTH: Case = Case {
    name: "damage in the last of four files",
    log: Log {
        segments: &[FIRST, SECOND, THIRD, FOURTH_DAMAGED],
        ..NO_FILES
    },
    counts: UP_TO_THE_FOURTH,
    series: 2,
    damage: Some(Damage {
        place: Place {
            in_checkpoint: false,
            file: 3,
            offset: 34,
        },
        kind: FaultKind::BadSum,
    }),
};

const IN_BOTH: Case = Case {
    name: "damage in two of four files",
    log: Log {
        segments: &[FIRST, SECOND_DAMAGED, THIRD, FOURTH_DAMAGED],
        ..NO_FILES
    },
    counts: UP_TO_THE_SECOND,
    series: 1,
    damage: Some(IN_THE_SECOND_FILE),
};

// The segments are numbered from 5.
const BEHIND_A_CHECKPOINT: Case = Case {
    name: "damage in a segment behind a checkpoint",
    log: Log {
        checkpoint: &[FIRST, SECOND],
        segments: &[THIRD, FOURTH_DAMAGED],
    },
    counts: UP_TO_THE_FOURTH,
    series: 2,
    damage: Some(Damage {
        place: Place {
            in_checkpoint: false,
            file: 6,
            offset: 34,
        },
        kind: FaultKind::BadSum,
    }),
};

const IN_THE_CHECKPOINT: Case = Case {
    name: "damage in a checkpoint",
    log: Log {
        checkpoint: &[FIRST, SECOND_DAMAGED],
        segments: &[THIRD, FOURTH_DAMAGED],
    },
    counts: UP_TO_THE_SECOND,
    series: 1,
    damage: Some(Damage {
        place: Place {
            in_checkpoint: true,
            file: 1,
            offset: 34,
        },
        kind: FaultKind::BadSum,
    }),
};

const AT_THE_START: Case = Case {
    name: "damage at the start",
    log: Log {
        segments: &[&[Line::Damaged], FIRST, SECOND],
        ..NO_FILES
    },
    counts: NOTHING,
    series: 0,
    damage: Some(Damage {
        place: Place {
            in_checkpoint: false,
            file: 0,
            offset: 0,
        },
        kind: FaultKind::BadSum,
    }),
};

const LAST_PART_CHANGED: Case = Case {
    name: "a record over two pages with a byte of the second changed",
    log: Log {
        segments: &[&[Line::Long(39_999), Line::Changed(32_785)]],
        ..NO_FILES
    },
    counts: NOTHING,
    series: 0,
    damage: Some(Damage {
        place: Place {
            in_checkpoint: false,
            file: 0,
            offset: 32_768,
        },
        kind: FaultKind::BadSum,
    }),
};

// The file after it is no part of the log either.
const NEVER_ENDED: Case = Case {
    name: "a record that begins in the last page of its file and never ends",
    log: Log {
        segments: &[&[Line::Long(39_999), Line::Cut(32_768)], FIRST],
        ..NO_FILES
    },
    counts: NOTHING,
    series: 0,
    damage: Some(Damage {
        place: Place {
            in_checkpoint: false,
            file: 0,
            offset: 32_768,
        },
        kind: FaultKind::Torn,
    }),
};

pub(crate) const TWO_PAGES_CHANGED: Case = Case {
    name: "six pages with a byte of the third and one of the sixth changed",
    log: Log {
        segments: &[&[
            Line::Long(32_760),
            Line::Long(32_760),
            Line::Long(32_760),
            Line::Long(32_760),
            Line::Long(32_760),
            Line::Long(32_760),
            Line::Changed(65_636),
            Line::Changed(163_940),
        ]],
        ..NO_FILES
    },
    counts: Counts {
        skipped_records: 2,
        ..NOTHING
    },
    series: 0,
    damage: Some(Damage {
        place: Place {
            in_checkpoint: false,
            file: 0,
            offset: 65_536,
        },
        kind: FaultKind::BadSum,
    }),
};

// Damage in a record of several pieces, and in each file of a log.
const DAMAGED: &[Case] = &[
    LAST_PART_CHANGED,
    NEVER_ENDED,
    TWO_PAGES_CHANGED,
    IN_THE_SECOND,
    IN_THE_FOURTH,
    IN_BOTH,
    BEHIND_A_CHECKPOINT,
    IN_THE_CHECKPOINT,
    AT_THE_START,
];

#[test]
fn damaged_logs(rt: HostRuntime) -> Result<(), Fail> {
    for case in DAMAGED {
        check(&rt, rt.alloc(), case)?;
    }
    Ok(())
}
