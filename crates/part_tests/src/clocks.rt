//! Timings and the first rule that they break, and moments, with values worked by hand.
//! This project's own.
ghost use Rattle.rcp_model.specs.TimingRules.{AreInRange};

use clock_model::{arrival, begin, check_timing, delay_limit, in_window, send, sync, vote};
use rcp_model::Timing;
use std::process::Abort;

// Drift over `compute` is 30000 * 100 / 1000000 = 3 ticks, over `compute + broadcast` 40000 * 100 / 1000000 = 4.
// At the limit it is 30000 * 500 / 1000000 = 15 ticks over `compute`, 22 over 44000 ticks.
const TIMING: Timing = Timing {
    compute: 30_000,
    broadcast: 10_000,
    vote: 4_000,
    sync: 6_000,
    skew: 50,
    drift_ppm: 100,
    delay_min: 100,
    delay_max: 2_000,
    skew_limit: 500,
    drift_limit_ppm: 500,
};

// The first rule that a timing breaks is this one, or it breaks none.
fn check(rt: &impl Abort, timing: &Timing, due: Result<(), u8>)
    requires { AreInRange timing.now }
{
    assert_eq!(rt; check_timing(timing), due, "{timing:?}");
}

#[test]
fn a_timing_passes(rt: HostRuntime) {
    check(&rt, &TIMING, Ok(()));
    // 50000 - 2 * 500 - 2 * 15 - 1.
    assert_eq!(rt; delay_limit(&TIMING), 48_969);
}

#[test]
fn empty_phases_break_the_first_rule(rt: HostRuntime) {
    check(
        &rt,
        &Timing {
            compute: 0,
            ..TIMING
        },
        Err(1),
    );
    check(
        &rt,
        &Timing {
            broadcast: 0,
            ..TIMING
        },
        Err(1),
    );
    check(&rt, &Timing { vote: 0, ..TIMING }, Err(1));
    check(&rt, &Timing { sync: 0, ..TIMING }, Err(1));
}

#[test]
fn late_messages_break_the_second_rule(rt: HostRuntime) {
    // 50 + 3 + 4 + 9943 is 10000.
    check(
        &rt,
        &Timing {
            delay_max: 9_943,
            ..TIMING
        },
        Ok(()),
    );
    check(
        &rt,
        &Timing {
            delay_max: 9_944,
            ..TIMING
        },
        Err(2),
    );
}

#[test]
fn early_messages_break_the_third_rule(rt: HostRuntime) {
    // Drift over 20 ticks is 0.002, so 1. 50 + 1 is 20 + 31.
    check(
        &rt,
        &Timing {
            compute: 20,
            delay_min: 31,
            ..TIMING
        },
        Ok(()),
    );
    check(
        &rt,
        &Timing {
            compute: 20,
            delay_min: 30,
            ..TIMING
        },
        Err(3),
    );
}

#[test]
fn a_short_sync_breaks_the_fourth_rule(rt: HostRuntime) {
    // 2 * 500 + 22 is 1022. At 501 parts per million the drift is 22.044, so 23.
    check(
        &rt,
        &Timing {
            sync: 1_023,
            ..TIMING
        },
        Ok(()),
    );
    check(
        &rt,
        &Timing {
            sync: 1_022,
            ..TIMING
        },
        Err(4),
    );
    check(
        &rt,
        &Timing {
            sync: 1_024,
            drift_limit_ppm: 501,
            ..TIMING
        },
        Ok(()),
    );
    check(
        &rt,
        &Timing {
            sync: 1_023,
            drift_limit_ppm: 501,
            ..TIMING
        },
        Err(4),
    );
}

#[test]
fn wide_skew_and_drift_break_the_fifth_rule(rt: HostRuntime) {
    check(
        &rt,
        &Timing {
            skew: 500,
            ..TIMING
        },
        Ok(()),
    );
    check(
        &rt,
        &Timing {
            skew: 501,
            ..TIMING
        },
        Err(5),
    );
    check(
        &rt,
        &Timing {
            drift_ppm: 500,
            ..TIMING
        },
        Ok(()),
    );
    check(
        &rt,
        &Timing {
            drift_ppm: 501,
            ..TIMING
        },
        Err(5),
    );
}

#[test]
fn wide_limits_and_delays_break_the_fifth_rule(rt: HostRuntime) {
    check(
        &rt,
        &Timing {
            drift_limit_ppm: 1_000,
            ..TIMING
        },
        Ok(()),
    );
    check(
        &rt,
        &Timing {
            drift_limit_ppm: 1_001,
            ..TIMING
        },
        Err(5),
    );
    check(
        &rt,
        &Timing {
            delay_min: 2_000,
            ..TIMING
        },
        Ok(()),
    );
    check(
        &rt,
        &Timing {
            delay_min: 2_001,
            ..TIMING
        },
        Err(5),
    );
}

#[test]
fn the_ends_of_the_ranges_are_tested(rt: HostRuntime) {
    let least = Timing {
        compute: 1,
        broadcast: 1,
        vote: 1,
        sync: 1,
        skew: 0,
        drift_ppm: 0,
        delay_min: 0,
        delay_max: 0,
        skew_limit: 0,
        drift_limit_ppm: 0,
    };
    // Each rule is 0 against 1 or 0 against 0, but for the greatest delay, 4 - 1.
    check(&rt, &least, Ok(()));
    assert_eq!(rt; delay_limit(&least), 3);
    let most = 1_000_000_000;
    let greatest = Timing {
        compute: most,
        broadcast: most,
        vote: most,
        sync: most,
        skew: most,
        drift_ppm: most,
        delay_min: most,
        delay_max: most,
        skew_limit: most,
        drift_limit_ppm: most,
    };
    // A clock drifts a thousand times the ticks. 4 * 10^9 - 2 * 10^9 - 2 * 10^12 - 1.
    check(&rt, &greatest, Err(2));
    assert_eq!(rt; delay_limit(&greatest), -1_998_000_000_001);
}

#[test]
fn begins_are_whole_frames_apart(rt: HostRuntime) {
    assert_eq!(rt; begin(&TIMING, 0, 0), 0);
    assert_eq!(rt; begin(&TIMING, 1, 0), 50_000);
    // 2 * 50000 + 50.
    assert_eq!(rt; begin(&TIMING, 2, 50), 100_050);
    // 1000000 * 50000, and 500 less.
    assert_eq!(rt; begin(&TIMING, 1_000_000, 0), 50_000_000_000);
    assert_eq!(rt; begin(&TIMING, 1_000_000, -500), 49_999_999_500);
}

#[test]
#[tactic(auto, unfolding(rcp_model::specs::Rounding::parts_rounded_up))]
fn a_message_is_sent_and_arrives(rt: HostRuntime) {
    // 50000 + 30000.
    assert_eq!(rt; send(&TIMING, 1, 0, 0), 80_000);
    // 50 + 30000 + 30000 * 100 / 1000000, which is 3.
    assert_eq!(rt; send(&TIMING, 0, 50, 100), 30_053);
    // -50 + 30000 - 3.
    assert_eq!(rt; send(&TIMING, 0, -50, -100), 29_947);
    assert_eq!(rt; arrival(30_000, 100), 30_100);
    // From before the first frame.
    assert_eq!(rt; arrival(-50, 100), 50);
    // 30053 + 2000.
    assert_eq!(rt; arrival(send(&TIMING, 0, 50, 100), 2_000), 32_053);
}

#[test]
fn votes_and_syncs_drift(rt: HostRuntime) {
    // 50000 + 30000 + 10000, and 4000 more.
    assert_eq!(rt; vote(&TIMING, 1, 0, 0), 90_000);
    assert_eq!(rt; sync(&TIMING, 1, 0, 0), 94_000);
    // 50 + 40000 + 40000 * 100 / 1000000, which is 4.
    assert_eq!(rt; vote(&TIMING, 0, 50, 100), 40_054);
    // 50 + 44000 + 44000 * 100 / 1000000, which is 4.4, so 4.
    assert_eq!(rt; sync(&TIMING, 0, 50, 100), 44_054);
    // 40000 * -1 / 1000000 is -0.04, so -1.
    assert_eq!(rt; vote(&TIMING, 0, 0, -1), 39_999);
    // 44000 * -100 / 1000000 is -4.4, so -5.
    assert_eq!(rt; sync(&TIMING, 0, 0, -100), 43_995);
    // 1000000 * 50000 - 500 + 40000 + 40000 * 500 / 1000000, which is 20.
    assert_eq!(rt; vote(&TIMING, 1_000_000, -500, 500), 50_000_039_520);
}

#[test]
fn a_window_has_both_its_ends(rt: HostRuntime) {
    // From 2 * 50000 to 2 * 50000 + 30000 + 10000.
    assert!(rt; !in_window(&TIMING, 2, 0, 0, 99_999));
    assert!(rt; in_window(&TIMING, 2, 0, 0, 100_000));
    assert!(rt; in_window(&TIMING, 2, 0, 0, 140_000));
    assert!(rt; !in_window(&TIMING, 2, 0, 0, 140_001));
    // From 100000 + 500 to 100000 + 500 + 40000 - 1.
    assert!(rt; !in_window(&TIMING, 2, 500, -1, 100_499));
    assert!(rt; in_window(&TIMING, 2, 500, -1, 100_500));
    assert!(rt; in_window(&TIMING, 2, 500, -1, 140_499));
    assert!(rt; !in_window(&TIMING, 2, 500, -1, 140_500));
    // The ends of 64 bits.
    assert!(rt; !in_window(&TIMING, 2, 0, 0, i64::MIN));
    assert!(rt; !in_window(&TIMING, 2, 0, 0, i64::MAX));
}
