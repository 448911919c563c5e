use ft_base::{ceil_div, div_floor};
use ft_memo::{Band, Timer};

#[test]
fn timers_count_to_their_hold(rt: HostRuntime) {
    let mut at_once = Timer::new(0, 50);
    assert_eq!(rt; at_once.age(), -1);
    assert_eq!(rt; (at_once.advance(true), at_once.age()), (true, 0));

    let mut third = Timer::new(70, 50);
    for (held, age) in [(false, 0), (false, 50), (true, 70), (true, 70)] {
        assert_eq!(rt; (third.advance(true), third.age()), (held, age));
    }

    let mut broken = Timer::new(70, 50);
    for (now, age) in [(true, 0), (false, -1), (true, 0)] {
        assert_eq!(rt; (broken.advance(now), broken.age()), (false, age));
    }
}

#[test]
fn bands_keep_the_bound_met_last(rt: HostRuntime) {
    let mut band = Band::new(10, 20, false);
    for (now, wanted) in [(20, true), (15, true), (10, false)] {
        assert_eq!(rt; band.advance(now), wanted);
    }
    let mut started = Band::new(10, 20, true);
    for now in [15, 11, 19] {
        assert_eq!(rt; started.advance(now), true);
    }
}

#[test]
fn division_rounds_down_and_up(rt: HostRuntime) {
    let rows = [
        (-1i64, 4i64, -1i64, 0i64),
        (-4, 4, -1, -1),
        (-5, 4, -2, -1),
        (0, 7, 0, 0),
        (1, 4, 0, 1),
        (8, 4, 2, 2),
        (i64::MIN, 1, i64::MIN, i64::MIN),
        (i64::MAX, 2, 4611686018427387903, 4611686018427387904),
        (i64::MIN, i64::MAX, -2, -1),
    ];
    for (a, k, floor, ceiling) in rows {
        if k > 0 {
            assert_eq!(rt;
                (div_floor(a, k), ceil_div(a, k)),
                (floor, ceiling),
                "{a} by {k}"
            );
        }
    }
}
