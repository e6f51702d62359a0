//! Races of small runs, step by step.

use hep_races::{Access, Detector, StepEvent, StorageUnit};
use std::alloc::Global;
use std::process::Abort;

const UNIT: StorageUnit = StorageUnit {
    owner: 0,
    name: 1,
    element: 1,
};

const FLAG: StorageUnit = StorageUnit {
    owner: 0,
    name: 2,
    element: 1,
};

fn step(
    rt: &impl Abort,
    detector: &mut Detector,
    process: u64,
    makes: Option<u64>,
    accesses: &[Access],
) {
    let event = StepEvent {
        process,
        makes,
        needs: None,
        changes: &[],
        accesses,
    };
    detector.observe(&event).expect(rt, "no memory");
}

fn handed(rt: &impl Abort, detector: &mut Detector, process: u64, needs: Option<StorageUnit>) {
    let event = StepEvent {
        process,
        makes: None,
        needs,
        changes: &[FLAG],
        accesses: &[],
    };
    detector.observe(&event).expect(rt, "no memory");
}

fn access(stores: bool, site: u32) -> Access {
    Access {
        at: UNIT,
        stores,
        site,
    }
}

/// Two processes store, and one of them reads: two rows, each with its first race and the number of races.
pub fn two_stores(rt: &impl Abort, alloc: Global) {
    let mut detector = Detector::new(alloc);
    step(rt, &mut detector, 1, Some(2), &[]);
    step(rt, &mut detector, 1, None, &[access(true, 7)]);
    step(rt, &mut detector, 2, None, &[access(true, 7)]);
    step(rt, &mut detector, 2, None, &[access(false, 8)]);
    step(rt, &mut detector, 2, None, &[access(true, 7)]);
    let rows = detector.rows();
    assert!(rt; rows.len() == 2);
    assert!(rt; rows[0].times == 2 && rows[0].first.step == 1 && rows[0].second.step == 2);
    assert!(rt; rows[1].times == 1 && rows[1].first.step == 1 && rows[1].second.step == 3);
}

/// What is stored before a full/empty storage unit is handed over doesn't race with what is stored after it.
pub fn handed_over(rt: &impl Abort, alloc: Global) {
    let mut detector = Detector::new(alloc);
    step(rt, &mut detector, 1, Some(2), &[]);
    step(rt, &mut detector, 1, None, &[access(true, 7)]);
    handed(rt, &mut detector, 1, None);
    handed(rt, &mut detector, 2, Some(FLAG));
    step(rt, &mut detector, 2, None, &[access(true, 7)]);
    assert!(rt; detector.rows().is_empty());
}
